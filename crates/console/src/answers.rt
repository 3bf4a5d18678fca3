// What a line is answered.
use line::NotCall;
use sheet::{Fault, Percentages};

#[derive(Clone, Copy)]
pub enum Answer {
    // a row was entered, with this number
    Row(u32),
    // a call was carried out that has nothing else to tell
    Done,
    // the safe failure fraction and the diagnostic coverage of a place
    Shown(Percentages),
    // the call was refused, and changed nothing
    Refused(Fault),
    // the line is no call, and changed nothing
    NotCall(NotCall),
}
