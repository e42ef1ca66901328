//! Programs that are refused, and the same without their fault.

pub const E01: &str = "  65,537 bytes: a program that is shorter, and comments behind it
";

pub const E01_MENDED: &str = ".capacity 1
.mode strict
.array n 1
.push
  mov rax, 0
  ret
.end
.pop
  mov rdx, 0
  mov rax, 0
  ret
.end
.thread push 7, pop
";

pub const E02: &str = ".capacity 1
.mode strict
.array n 1
.push
  mov rax, 0      ; déjà vu
  ret
.end
.pop
  mov rdx, 0
  mov rax, 0
  ret
.end
.thread push 7, pop
";

pub const E02_MENDED: &str = ".capacity 1
.mode strict
.array n 1
.push
  mov rax, 0      ; deja vu
  ret
.end
.pop
  mov rdx, 0
  mov rax, 0
  ret
.end
.thread push 7, pop
";

pub const E03: &str = ".capacity 1
.mode strict
.array n 1
.push
  mov rax 0       ; no comma
  ret
.end
.pop
  mov rdx, 0
  mov rax, 0
  ret
.end
.thread push 7, pop
";

pub const E03_MENDED: &str = ".capacity 1
.mode strict
.array n 1
.push
  mov rax, 0
  ret
.end
.pop
  mov rdx, 0
  mov rax, 0
  ret
.end
.thread push 7, pop
";

pub const E04: &str = ".capacity 1
.mode strict
.array n 1
.push
  mov eax, 0      ; 32 bits
  ret
.end
.pop
  mov rdx, 0
  mov rax, 0
  ret
.end
.thread push 7, pop
";

pub const E04_MENDED: &str = ".capacity 1
.mode strict
.array n 1
.push
  mov rax, 0
  ret
.end
.pop
  mov rdx, 0
  mov rax, 0
  ret
.end
.thread push 7, pop
";

pub const E05: &str = ".capacity 1
.mode strict
.array n 2
.push
  mov rax, qword ptr [n + 4]
  mov rax, 0
  ret
.end
.pop
  mov rdx, 0
  mov rax, 0
  ret
.end
.thread push 7, pop
";

pub const E05_MENDED: &str = ".capacity 1
.mode strict
.array n 2
.push
  mov rax, qword ptr [n + 8]
  mov rax, 0
  ret
.end
.pop
  mov rdx, 0
  mov rax, 0
  ret
.end
.thread push 7, pop
";

pub const E06: &str = ".capacity 1
.mode strict
.array n 1
.push
  cmp rdi, 0
  je zero
zero:
  mov rax, 0
zero:
  ret
.end
.pop
  mov rdx, 0
  mov rax, 0
  ret
.end
.thread push 7, pop
";

pub const E06_MENDED: &str = ".capacity 1
.mode strict
.array n 1
.push
  cmp rdi, 0
  je zero
zero:
  mov rax, 0
one:
  ret
.end
.pop
  mov rdx, 0
  mov rax, 0
  ret
.end
.thread push 7, pop
";

pub const E07: &str = ".capacity 1
.mode strict
.array n 1
.push
  mov qword ptr [m], rdi
  mov rax, 1
  ret
.end
.pop
  mov rdx, 0
  mov rax, 0
  ret
.end
.thread push 7, pop
";

pub const E07_MENDED: &str = ".capacity 1
.mode strict
.array n 1
.push
  mov qword ptr [n], rdi
  mov rax, 1
  ret
.end
.pop
  mov rdx, 0
  mov rax, 0
  ret
.end
.thread push 7, pop
";

pub const E08: &str = ".capacity 1
.mode strict
.array n 1
.push
  mov rax, 0
  ret
.end
.pop
  mov rdx, 0
  mov rax, 0
  ret
.end
";

pub const E08_MENDED: &str = ".capacity 1
.mode strict
.array n 1
.push
  mov rax, 0
  ret
.end
.pop
  mov rdx, 0
  mov rax, 0
  ret
.end
.thread push 7, pop
";

pub const E09: &str = ".capacity 1
.mode strict
.array n 1
.push
  mov rax, 0
  ret
.end
.pop
  mov rdx, 0
  mov rax, 0
  ret
.end
.thread push 1, push 2, push 3, push 4, pop
";

pub const E09_MENDED: &str = ".capacity 1
.mode strict
.array n 1
.push
  mov rax, 0
  ret
.end
.pop
  mov rdx, 0
  mov rax, 0
  ret
.end
.thread push 1, push 2, push 3, push 4
.thread pop
";

pub const E10: &str = ".capacity 1
.mode strict
.array n 1
.push
  mov rax, 1
  xadd qword ptr [n], rax
  mov rax, 0
  ret
.end
.pop
  mov rdx, 0
  mov rax, 0
  ret
.end
.thread push 7, pop
";

pub const E10_MENDED: &str = ".capacity 1
.mode strict
.array n 1
.push
  mov rax, 1
  lock xadd qword ptr [n], rax
  mov rax, 0
  ret
.end
.pop
  mov rdx, 0
  mov rax, 0
  ret
.end
.thread push 7, pop
";

pub const E11: &str = ".capacity 1
.mode strict
.array n 1
.push
  mov rax, 0
.end
.pop
  mov rdx, 0
  mov rax, 0
  ret
.end
.thread push 7, pop
";

pub const E11_MENDED: &str = ".capacity 1
.mode strict
.array n 1
.push
  mov rax, 0
  ret
.end
.pop
  mov rdx, 0
  mov rax, 0
  ret
.end
.thread push 7, pop
";

pub const E12: &str = ".capacity 1
.mode strict
.array n 1
.push
retry:
  mov rax, qword ptr [n]
  cmp rax, 0
  jne retry
  ret
.end
.pop
  mov rdx, 0
  mov rax, 0
  ret
.end
.thread push 7, pop
";

pub const E12_MENDED: &str = ".capacity 1
.mode strict
.array n 1
.push
retry:
  mov rax, qword ptr [n]
  cmp rax, 0
  jne retry bound 2
  ret
.end
.pop
  mov rdx, 0
  mov rax, 0
  ret
.end
.thread push 7, pop
";

pub const E13: &str = ".capacity 1
.mode strict
.array n 1
.push
  mov rax, 0
  cmp rdi, 0
  je full bound 2
  mov qword ptr [n], rdi
full:
  ret
.end
.pop
  mov rdx, 0
  mov rax, 0
  ret
.end
.thread push 7, pop
";

pub const E13_MENDED: &str = ".capacity 1
.mode strict
.array n 1
.push
  mov rax, 0
  cmp rdi, 0
  je full
  mov qword ptr [n], rdi
full:
  ret
.end
.pop
  mov rdx, 0
  mov rax, 0
  ret
.end
.thread push 7, pop
";

pub const E14: &str = ".capacity 1
.mode strict
.array n 1
.push
  xor rax, rax    ; reads rax
  ret
.end
.pop
  mov rdx, 0
  mov rax, 0
  ret
.end
.thread push 7, pop
";

pub const E14_MENDED: &str = ".capacity 1
.mode strict
.array n 1
.push
  mov rax, 0
  ret
.end
.pop
  mov rdx, 0
  mov rax, 0
  ret
.end
.thread push 7, pop
";
