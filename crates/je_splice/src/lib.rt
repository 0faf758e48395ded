//! Blocks of instructions put into a method: the law of spliced code.
//!
//! Stands on je_base, je_consts, je_desc, je_instr and je_machine. Has no code of its own: its
//! functions are laws over the definitions. Offers above: what it is for a block to do what is
//! meant, the lists that code with blocks is laid out by, and that a method with blocks in place,
//! and its code with pieces in place, do what the reference run does.
#![tactic(auto)]

mod blocks;
mod choices;
mod fits;
mod layouts;
mod mapped;
mod marks;
mod pieces;
mod resolved;
mod runs;
mod shown;

pub use blocks::{blocks_mean, laid_programs, places_are_kept, spliced_methods};
pub use choices::choices_are_marks;
pub use fits::{marked_items_fit, replaced_methods_fit};
pub use layouts::{code_is_laid, throws_are_laid};
pub use mapped::{layouts_are_mapped, marks_are_mapped};
pub use marks::{
    indexes_rise, methods_are_replaced, pieces_are_placed, places_are_counted, places_are_indexes,
    replacements_stand_alone, throws_are_placed,
};
pub use pieces::{actions_give_way, pieces_mean};
pub use resolved::{
    code_is_woven, instructions_move, marks_are_meant, programs_resolve, puts_are_marks,
    replaced_methods,
};
pub use runs::{does_agree, embeds};
pub use shown::{loop_calls_give_way, loop_code_is_spliced, loop_is_spliced, small_layouts};
