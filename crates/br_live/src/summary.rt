// What statements do to the names that are live after them.

ghost use Rattle.std.specs.Prelude.{◌≡◌, IfOk, IsTrue};
ghost use Rattle.br_flatimp.specs.Liveness.{is_in, nothing, union, without};
ghost use Rattle.br_flatimp.specs.Parts.{statement_names};
ghost use Rattle.br_flatimp.specs.Values.{Names};
ghost use Rattle.br_flatimp.specs.WellFormed.{are_below};
ghost use Rattle.br_flatimp.specs.Parts.{own_read, own_written};

use crate::bit_set::BitSet;
use br_base::NoMemory;
use br_flatimp::{Cond, Operand, Stmt};
use std::alloc::Global;

/// The names that statements may read before they write them, and the names that they surely write.
/// It is made from the last statement to the first.
#[derive(Drop)]
pub struct Summary {
    pub reads: BitSet,
    pub writes: BitSet,
    ghost same_bound: { reads.bound ≡ writes.bound },
}

impl Summary {
    ghost use Rattle.br_live.specs.BitSets.{set_of};
    ghost use Rattle.br_live.specs.Summaries.{handed};

    /// That of no statements, with so many names.
    pub fn new(alloc: Global, names: u32) -> Result<Summary, NoMemory>
        ensures bound { IfOk result (λ s. s.reads.bound ≡ names) }
        ensures hands { IfOk result (λ s. (after : Names) → handed s after ≡ after) }
    {
        let reads = BitSet::new(alloc, names)?;
        let writes = BitSet::new(alloc, names)?;
        Ok(Summary { reads, writes })
    }

    /// The same once more.
    pub fn copy(&self, alloc: Global) -> Result<Summary, NoMemory>
        ensures bound { IfOk result (λ s. s.reads.bound ≡ self.now.reads.bound) }
        ensures hands { IfOk result
            (λ s. (after : Names) → handed s after ≡ handed self.now after) }
    {
        let reads = self.reads.copy(alloc)?;
        let writes = self.writes.copy(alloc)?;
        Ok(Summary { reads, writes })
    }

    /// Puts the names that a statement writes and reads itself before the statements.
    pub fn own(&mut self, writes: &[u32], reads: &[u32])
        requires written { IsTrue (are_below self.old.reads.bound writes.now) }
        requires read { IsTrue (are_below self.old.reads.bound reads.now) }
        ensures bound { self.new.reads.bound ≡ self.old.reads.bound }
        ensures reads { set_of self.new.reads
            ≡ union (without (set_of self.old.reads) writes.now) (is_in reads.now) }
        ensures writes { set_of self.new.writes
            ≡ union (set_of self.old.writes) (is_in writes.now) }
        ensures hands { (after : Names) →
            handed self.new after
            ≡ union (without (handed self.old after) writes.now) (is_in reads.now) }
    {
        self.reads.remove_all(writes);
        self.reads.insert_all(reads);
        self.writes.insert_all(writes);
    }

    /// Puts other statements before the statements.
    pub fn prepend(&mut self, earlier: &Summary)
        requires { self.old.reads.bound ≡ earlier.now.reads.bound }
        ensures bound { self.new.reads.bound ≡ self.old.reads.bound }
        ensures hands { (after : Names) →
            handed self.new after ≡ handed earlier.now (handed self.old after) }
    {
        self.reads.subtract(&earlier.writes);
        self.reads.union_with(&earlier.reads);
        self.writes.union_with(&earlier.writes);
    }

    /// Makes it that of either of two lists of statements.
    pub fn join(&mut self, other: &Summary)
        requires { self.old.reads.bound ≡ other.now.reads.bound }
        ensures bound { self.new.reads.bound ≡ self.old.reads.bound }
        ensures hands { (after : Names) →
            handed self.new after ≡ union (handed self.old after) (handed other.now after) }
    {
        self.reads.union_with(&other.reads);
        self.writes.keep_common(&other.writes);
    }

    /// Puts before the statements that what others read first may be read.
    pub fn read_first(&mut self, other: &Summary)
        requires { self.old.reads.bound ≡ other.now.reads.bound }
        ensures bound { self.new.reads.bound ≡ self.old.reads.bound }
        ensures hands { (after : Names) →
            handed self.new after ≡ union (handed self.old after) (handed other.now nothing) }
    {
        self.reads.union_with(&other.reads);
    }

    /// Puts the names that a statement writes and reads itself,
    /// its parts aside, before the statements.
    #[tactic(auto, using(crate::proofs::Own::own_lists))]
    pub(crate) fn own_names(&mut self, s: &Stmt)
        requires { IsTrue (are_below self.old.reads.bound (statement_names s.now)) }
        ensures bound { self.new.reads.bound ≡ self.old.reads.bound }
        ensures reads { set_of self.new.reads
            ≡ union (without (set_of self.old.reads) (own_written s.now)) (is_in (own_read s.now)) }
        ensures writes { set_of self.new.writes
            ≡ union (set_of self.old.writes) (is_in (own_written s.now)) }
    {
        match s {
            Stmt::Lit(x, _) | Stmt::Stackalloc(x, _, _) => self.own(&[*x], &[]),
            Stmt::Copy(x, y)
            | Stmt::Load(x, _, y, _)
            | Stmt::Table(x, _, _, y)
            | Stmt::Read(x, y) => { self.own(&[*x], &[*y]) }
            Stmt::Op(x, _, y, Operand::Name(z)) => self.own(&[*x], &[*y, *z]),
            Stmt::Op(x, _, y, Operand::Const(_)) => self.own(&[*x], &[*y]),
            Stmt::Store(_, y, z, _) | Stmt::Write(y, z) => self.own(&[], &[*y, *z]),
            Stmt::If(Cond::NonZero(y), _, _) | Stmt::Loop(_, Cond::NonZero(y), _) => {
                self.own(&[], &[*y])
            }
            Stmt::If(Cond::Compare(_, y, z), _, _) | Stmt::Loop(_, Cond::Compare(_, y, z), _) => {
                self.own(&[], &[*y, *z])
            }
            Stmt::Call(xs, _, ys) => self.own(xs.as_slice(), ys.as_slice()),
        }
    }

    /// Puts a statement before the statements, its parts aside.
    pub fn put_own(&mut self, s: &Stmt)
        requires { IsTrue (are_below self.old.reads.bound (statement_names s.now)) }
        ensures bound { self.new.reads.bound ≡ self.old.reads.bound }
        ensures hands { (after : Names) →
            handed self.new after ≡ union (without (handed self.old after) (own_written s.now))
            (is_in (own_read s.now)) }
    {
        self.own_names(s);
    }
}
