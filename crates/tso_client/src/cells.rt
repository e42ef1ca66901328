//! Cells of arrays and their places in memory.

ghost use Rattle.tso_client.specs.Cells.{CellsHavePlaces, MemoryHoldsArrays, MemoryIsCells, OperandsCount, PlacesAreDistinct, PlacesAreOfCells, PlainOperandsCount};

use tso_prog::Client;

/// Exactly the cells of arrays have places, each its own; each place in memory is that of a cell, and there memory holds at
/// first what the array does.
pub fn places_are_cells(client: &Client)
    ensures have { CellsHavePlaces client.now }
    ensures only { PlacesAreOfCells client.now }
    ensures distinct { PlacesAreDistinct client.now }
    ensures all { MemoryIsCells client.now }
    ensures holds { MemoryHoldsArrays client.now }
{}

/// The operand `[a + r*8 + d]` is the element r + d/8 of the array a, with r unsigned and nothing wrapped, and `[a + d]` is the
/// element d/8.
pub fn operands_count(client: &Client)
    ensures indexed { OperandsCount client.now }
    ensures plain { PlainOperandsCount client.now }
{}
