// A sheet as it is read and handed to the renderer: notes and instruments in counted arrays.

#![tactic(auto)]

pub mod length;
pub mod note;
pub mod refusal;
pub mod sheet;
