//! How tables are spelled and read.
ghost use Rattle.std.specs.Prelude.{◌≡◌, [], ◌++◌, Err, OnOk};
ghost use Rattle.tso_code.specs.Fields.{Gives};
ghost use Rattle.tso_code.specs.Tables.{ArrayTableFits, CellsFit, IntervalFits, IntervalsFit, IntervalTableFits, ItemFits, MasksFit, TableFits, array_table, array_table_at, cells, cells_at, interval, interval_at, interval_table, interval_table_at, intervals, intervals_at, item, item_at, masks, masks_at, table, table_at};

use crate::code::{Code, ReadError, read_fifteen, read_place, write_items, write_number};
use std::alloc::{AllocError, Global};
use tso_cells::{Cells, Interval, IntervalTable, Item};
use tso_foot::{ArrayTable, Masks, Table};
use tso_list::Seq;

impl Code for Masks {
    ghost Fits = { MasksFit };

    ghost spell = { masks };

    ghost read_at = { masks_at };

    #[tactic(auto, unfolding(crate::specs::Tables::masks_at))]
    fn read(alloc: Global, bytes: &[u8]) -> Result<(Masks, &[u8]), ReadError> {
        let (reads, rest) = u16::read(alloc, bytes)?;
        let (writes, rest) = u16::read(alloc, rest)?;
        Ok((Masks { reads, writes }, rest))
    }

    fn write(&self, out: &mut Vec<u8>) -> Result<(), AllocError> {
        self.reads.write(out)?;
        self.writes.write(out)
    }
}

impl Code for ArrayTable {
    ghost Fits = { ArrayTableFits };

    ghost spell = { array_table };

    ghost read_at = { array_table_at };

    #[tactic(auto, unfolding(crate::specs::Tables::array_table_at))]
    fn read(alloc: Global, bytes: &[u8]) -> Result<(ArrayTable, &[u8]), ReadError> {
        let (push, rest) = Seq::read(alloc, bytes)?;
        let (pop, rest) = Seq::read(alloc, rest)?;
        Ok((ArrayTable { push, pop }, rest))
    }

    fn write(&self, out: &mut Vec<u8>) -> Result<(), AllocError> {
        self.push.write(out)?;
        self.pop.write(out)
    }
}

impl Code for Interval {
    ghost Fits = { IntervalFits };

    ghost spell = { interval };

    ghost read_at = { interval_at };

    #[tactic(auto, unfolding(crate::specs::Tables::interval_at))]
    fn read(alloc: Global, bytes: &[u8]) -> Result<(Interval, &[u8]), ReadError> {
        let (lo, rest) = u64::read(alloc, bytes)?;
        let (hi, rest) = u64::read(alloc, rest)?;
        Ok((Interval { lo, hi }, rest))
    }

    fn write(&self, out: &mut Vec<u8>) -> Result<(), AllocError> {
        self.lo.write(out)?;
        self.hi.write(out)
    }
}

// The intervals of the registers, one after the other with no count.
impl Code for [Interval; 15] {
    ghost Fits = { IntervalsFit };

    ghost spell = { intervals };

    ghost read_at = { intervals_at };

    #[tactic(auto, unfolding(crate::specs::Tables::intervals_at))]
    fn read(alloc: Global, bytes: &[u8]) -> Result<([Interval; 15], &[u8]), ReadError> {
        read_fifteen(alloc, Interval::alone(0), bytes)
    }

    fn write(&self, out: &mut Vec<u8>) -> Result<(), AllocError> {
        write_items(self, out)
    }
}

impl Code for Cells {
    ghost Fits = { CellsFit };

    ghost spell = { cells };

    ghost read_at = { cells_at };

    #[tactic(auto, unfolding(crate::specs::Tables::cells_at))]
    fn read(_alloc: Global, bytes: &[u8]) -> Result<(Cells, &[u8]), ReadError> {
        let (array, rest) = read_place(bytes)?;
        let (lo, rest) = read_place(rest)?;
        let (hi, rest) = read_place(rest)?;
        Ok((Cells { array, lo, hi }, rest))
    }

    fn write(&self, out: &mut Vec<u8>) -> Result<(), AllocError> {
        write_number(self.array as u64, out)?;
        write_number(self.lo as u64, out)?;
        write_number(self.hi as u64, out)
    }
}

impl Code for Item {
    ghost Fits = { ItemFits };

    ghost spell = { item };

    ghost read_at = { item_at };

    #[tactic(auto, unfolding(crate::specs::Tables::item_at))]
    fn read(alloc: Global, bytes: &[u8]) -> Result<(Item, &[u8]), ReadError> {
        let (registers, rest) = <[Interval; 15]>::read(alloc, bytes)?;
        let (reads, rest) = Seq::read(alloc, rest)?;
        let (writes, rest) = Seq::read(alloc, rest)?;
        Ok((
            Item {
                registers,
                reads,
                writes,
            },
            rest,
        ))
    }

    fn write(&self, out: &mut Vec<u8>) -> Result<(), AllocError> {
        self.registers.write(out)?;
        self.reads.write(out)?;
        self.writes.write(out)
    }
}

impl Code for IntervalTable {
    ghost Fits = { IntervalTableFits };

    ghost spell = { interval_table };

    ghost read_at = { interval_table_at };

    #[tactic(auto, unfolding(crate::specs::Tables::interval_table_at))]
    fn read(alloc: Global, bytes: &[u8]) -> Result<(IntervalTable, &[u8]), ReadError> {
        let (push, rest) = Seq::read(alloc, bytes)?;
        let (pop, rest) = Seq::read(alloc, rest)?;
        Ok((IntervalTable { push, pop }, rest))
    }

    fn write(&self, out: &mut Vec<u8>) -> Result<(), AllocError> {
        self.push.write(out)?;
        self.pop.write(out)
    }
}

impl Code for Table {
    ghost Fits = { TableFits };

    ghost spell = { table };

    ghost read_at = { table_at };

    #[tactic(auto, unfolding(crate::specs::Tables::table_at))]
    fn read(alloc: Global, bytes: &[u8]) -> Result<(Table, &[u8]), ReadError> {
        match bytes {
            [1, rest @ ..] => {
                let (table, rest) = ArrayTable::read(alloc, rest)?;
                Ok((Table::Arrays(table), rest))
            }
            [2, rest @ ..] => {
                let (table, rest) = IntervalTable::read(alloc, rest)?;
                Ok((Table::Intervals(table), rest))
            }
            _ => Err(ReadError::Malformed),
        }
    }

    fn write(&self, out: &mut Vec<u8>) -> Result<(), AllocError> {
        match self {
            Table::Arrays(table) => {
                out.push(1)?;
                table.write(out)
            }
            Table::Intervals(table) => {
                out.push(2)?;
                table.write(out)
            }
        }
    }
}
