//! Blocks of instructions, and where they are put.

use je_instr::{Handler, Instr, InstrIndex, Program};
use je_shape::Shape;
use sqlite_items::Items;

/// A piece of code. Its targets count from its first instruction, and its length means the place
/// behind it.
#[derive(Debug, Drop)]
pub struct Block {
    /// The instructions.
    pub instrs: Items<Instr>,
    /// The handlers of their exceptions, of which the first that fits counts.
    pub handlers: Items<Handler>,
    /// What is known at each index that can be reached, in order, with the stack under the block
    /// and the local variables from before. In it `Uninit(k)` is what the block's own instruction k
    /// made, where k is below its length n, and else what instruction k - n made of the program
    /// that receives the block.
    pub shapes: Items<(InstrIndex, Shape)>,
    /// The greatest number of stack places that the block uses above those under it.
    pub depth: u32,
    /// One past the highest local variable that it uses.
    pub locals: u32,
}

/// A block at the index of an instruction.
#[derive(Debug, Drop)]
pub struct PlaceBlock {
    /// The index of the instruction.
    pub at: InstrIndex,
    /// Whether the block stands in place of the instruction, and not before it.
    pub removed: bool,
    /// Whether jumps and handlers that lead to the instruction meet the block; else they pass it.
    pub jumps: bool,
    /// The block.
    pub block: Block,
}

/// A block in the way of handlers.
#[derive(Debug, Drop)]
pub struct EntryBlock {
    /// Where the handlers lead.
    pub target: InstrIndex,
    /// The index of the class that they catch, or 0.
    pub catch_const: u16,
    /// The block.
    pub block: Block,
}

/// A program with blocks in place.
#[derive(Debug, Drop)]
pub struct Spliced {
    /// The program.
    pub program: Program,
    /// Where what stands at each old index begins, and the end.
    pub new_of: Items<InstrIndex>,
    /// What is known at the blocks' instructions, by their new indexes.
    pub shapes: Items<(InstrIndex, Shape)>,
}
