//! Program texts, each with marks. Of the certificates some are in `certificates`.

/// Adds 1 to $8 and $8 to $9 until $8 is 4, one task for each round, and puts out $9; in canonical
/// text.
pub const COUNT: &str = ".start A
.task A create=$8,$9,$10 targets=A,B
.task B create=- targets=-
A:
addiu $8,$8,1 !f
addu $9,$9,$8 !f
slti $10,$8,4
bne $10,$0,A !s
B:
out $9
halt
";

/// `COUNT` where $10 is forwarded as well.
pub const COUNT_FORWARDED: &str = ".start A
.task A create=$8,$9,$10 targets=A,B
.task B create=- targets=-
A:
addiu $8,$8,1 !f
addu $9,$9,$8 !f
slti $10,$8,4 !f
bne $10,$0,A !s
B:
out $9
halt
";

/// A task that never ends: an endless loop.
pub const SPIN: &str = ".task A create=- targets=-
A: j A
";

/// Two paths of tasks that join again.
pub const DIAMOND: &str = ".task A create=$8 targets=B,C
.task B create=- targets=D
.task C create=- targets=D
.task D create=$9 targets=-
A: addiu $8,$0,1 !f
bne $8,$0,C !s
B: j D !s
C: nop !s
D: addiu $9,$0,7 !f
out $9
halt
";

/// An endless loop on a path that is never taken.
pub const WRONG_PATH_SPIN: &str = ".task A create=- targets=B,C
.task B create=- targets=-
.task C create=- targets=-
A: beq $0,$0,C !s
B: j B
C: halt
";

/// Two tasks that need nothing from each other.
pub const PAIR: &str = ".task A create=$8 targets=B
.task B create=$9 targets=C
.task C create=- targets=-
A: addiu $8,$0,1 !f !s
B: addiu $9,$0,2 !f !s
C: halt
";

/// Three tasks with five wrong marks.
pub const FIVE_FINDINGS: &str = ".task A create=- targets=B
.task B create=$9 targets=D
.task C create=- targets=-
A: addiu $8,$0,1 !f !s
B: addiu $9,$0,2 !s
C: out $9
D: halt
";

/// Two tasks, of which the first releases a register on one of its two paths; its create mask also has $7, which it never
/// writes.
pub const RELEASE_CREATES_MORE: &str = ".task A create=$7,$8,$9 targets=B
.task B create=- targets=-
A: addiu $9,$0,5 !f
bne $9,$0,S
addiu $8,$0,1 !f
j B !s
S: release $8 !s
B: out $8
halt
";
