// Reading: from a text to its trees.

ghost use Rattle.std.specs.Prelude.{◌≡◌, ℕ, ◌≤◌, List, [], ◌∷◌, length, IsErr};
ghost use Rattle.std.specs.Prelude.{IfOk, IfErr, OnOk, MatchOption, MatchResult};
ghost use Rattle.br_base.specs.declared.failure.OrMemory.{OrMemory};
ghost use Rattle.br_sexpr.specs.declared.tree.Tree.{Tree};
ghost use Rattle.br_sexpr.specs.declared.tree.TextFault.{TextFault};
ghost use Rattle.br_sexpr.specs.Canonical.{canonical, AreSameUpToOffsets, ArePrintable};
ghost use Rattle.br_base.specs.Faults.{IfFault};
ghost use Rattle.br_sexpr.specs.Reads.{most_bytes, Reads, HasFault};
ghost use Rattle.br_sexpr.specs.Token.{token_of_run, opens, closes};
ghost use Rattle.br_sexpr.specs.Progress.{tokens_from, token_as, Answers, Refuses, IsWord};

use crate::number::number;
use crate::piece::{Kind, first_piece};
use crate::tree::{TextFault, Tree};
use br_base::{Name, OrMemory};
use sqlite_items::Items;
use std::alloc::Global;

/// The most bytes of a source text.
pub const MOST_BYTES: usize = 1_048_576;

// How many lists may stand in one another.
const MOST_OPEN: usize = 256;

/// A list whose `)` has not come: where its `(` stands, and where its first tree stands among the
/// trees of the reader.
#[derive(Clone, Copy, Debug)]
struct OpenList {
    at: u32,
    start: usize,
}

/// What was read so far: the trees that are in no finished list, and the lists that are open, the
/// outermost first.
#[derive(Debug, Drop)]
struct Reader {
    trees: Vec<Tree>,
    lists: Vec<OpenList>,
}

/// The trees of a text. Blanks are space, tab, line feed and carriage return; a comment runs from
/// `;` to the end of its line. A fault is the one of the lowest offset, and `Unclosed` comes only
/// where there is no other. Want of memory may come at any text.
pub fn read(alloc: Global, bytes: &[u8]) -> Result<Items<Tree>, OrMemory<TextFault>>
    requires { length bytes.now ≤ most_bytes }
    ensures trees { IfOk result (λ trees. Reads bytes.now trees) }
    ensures readable { (trees : List Tree) → Reads bytes.now trees →
        IfErr result (λ e. e ≡ OrMemory.Memory) }

    ensures fault { IfErr result (λ e. IfFault e (λ f. HasFault bytes.now f)) }
    ensures faulty { (f : TextFault) → HasFault bytes.now f → IsErr result }

    // What was printed is read again.
    ensures printed { (trees : List Tree) → ArePrintable trees → bytes.now ≡ canonical trees
        → MatchResult result (λ got. AreSameUpToOffsets got trees) (λ e. e ≡ OrMemory.Memory) }
{
    trees_of(alloc, bytes)
}

fn trees_of(alloc: Global, bytes: &[u8]) -> Result<Items<Tree>, OrMemory<TextFault>>
    requires { length bytes.now ≤ most_bytes }
    ensures { Answers result (tokens_from 0 bytes.now) }
{
    let mut reader = Reader::new(alloc);
    let mut at = 0;
    while at < bytes.len() {
        let rest = &bytes[at..];
        let (kind, len) = first_piece(rest);
        reader.take(at as u32, kind, &rest[..len])?;
        at += len;
    }
    reader.finish()
}

impl Reader {
    ghost use Rattle.br_sexpr.specs.Faults.{unclosed};
    ghost use Rattle.br_sexpr.specs.Progress.{IsOrdered, Took, Ends, places};

    fn new(alloc: Global) -> Reader
        ensures no_list { result.lists.items ≡ [] }
        ensures empty { result.trees.items ≡ [] }
    {
        Reader {
            trees: Vec::new(alloc),
            lists: Vec::new(alloc),
        }
    }

    // Takes the piece of these bytes that stands at this offset.
    fn take(&mut self, at: u32, kind: Kind, bytes: &[u8]) -> Result<(), OrMemory<TextFault>>
        requires { IsOrdered self.old }
        ensures took { OnOk result (Took self.old self.new (token_as at kind bytes.now)) }
        ensures refused { IfErr result
            (λ e. Refuses e (places self.old) (token_as at kind bytes.now)) }
    {
        match kind {
            Kind::Gap => Ok(()),
            Kind::Open => self.begin_list(at),
            Kind::Close => self.end_list(at),
            Kind::Run => self.push(at, bytes),
            Kind::Stray => Err(OrMemory::Fault(TextFault::BadByte(at))),
        }
    }

    fn begin_list(&mut self, at: u32) -> Result<(), OrMemory<TextFault>>
        requires { IsOrdered self.old }
        ensures took { OnOk result (Took self.old self.new (opens at ∷ [])) }
        ensures refused { IfErr result (λ e. Refuses e (places self.old) (opens at ∷ [])) }
    {
        if self.lists.len() >= MOST_OPEN {
            return Err(OrMemory::Fault(TextFault::TooDeep(at)));
        }
        let start = self.trees.len();
        self.lists.push(OpenList { at, start })?;
        Ok(())
    }

    fn end_list(&mut self, at: u32) -> Result<(), OrMemory<TextFault>>
        requires { IsOrdered self.old }
        ensures took { OnOk result (Took self.old self.new (closes at ∷ [])) }
        ensures refused { IfErr result (λ e. Refuses e (places self.old) (closes at ∷ [])) }
    {
        match self.lists.pop() {
            None => Err(OrMemory::Fault(TextFault::ExtraClose(at))),
            Some(list) => {
                let items = Items::from_vec(self.trees.split_off(list.start)?);
                self.trees.push(Tree::List { at: list.at, items })?;
                Ok(())
            }
        }
    }

    fn push(&mut self, at: u32, run: &[u8]) -> Result<(), OrMemory<TextFault>>
        requires { IsOrdered self.old }
        ensures took { OnOk result (Took self.old self.new (token_of_run at run.now ∷ [])) }
        ensures refused { IfErr result
            (λ e. Refuses e (places self.old) (token_of_run at run.now ∷ [])) }
    {
        let tree = word(*self.trees.allocator(), at, run)?;
        self.trees.push(tree)?;
        Ok(())
    }

    // The offset of the outermost list that is open.
    fn first_open(&self) -> Option<u32>
        ensures { MatchOption result (self.now.lists.items ≡ [])
            (λ at. unclosed (places self.now) ≡ Some (TextFault.Unclosed at)) }
    {
        let first = self.lists.first()?;
        Some(first.at)
    }

    fn finish(self) -> Result<Items<Tree>, OrMemory<TextFault>>
        ensures { Ends self result }
    {
        match self.first_open() {
            None => Ok(Items::from_vec(self.trees)),
            Some(at) => Err(OrMemory::Fault(TextFault::Unclosed(at))),
        }
    }
}

// The name or the number that a run at this offset is.
fn word(alloc: Global, at: u32, run: &[u8]) -> Result<Tree, OrMemory<TextFault>>
    ensures tree { IfOk result (λ tree. IsWord tree (token_of_run at run.now)) }
    ensures refused { IfErr result
        (λ e. (xs : List ℕ) → Refuses e xs (token_of_run at run.now ∷ [])) }
{
    if let Some(text) = Name::from_bytes(Vec::from_slice(alloc, run)?) {
        return Ok(Tree::Name { at, text });
    }
    match number(run) {
        Some(value) => Ok(Tree::Number { at, value }),
        None => Err(OrMemory::Fault(TextFault::BadNumber(at))),
    }
}
