// A line that has come in whole is read, the call that it makes is handed to the sheet, and the result is the answer.
ghost use Rattle.std.specs.Prelude.{◌≡◌, [], Some};
ghost use Rattle.line.specs.Buffer.{read_held};
ghost use Rattle.console.specs.Helpers.{told};
ghost use Rattle.console.specs.Replies.{Replies, Responds};
ghost use Rattle.sheet.specs.Sound.{Sound};

use crate::answers::Answer;
use line::{Call, LineBuffer};
use sheet::{Fault, Sheet};

// Carries out one call, unless the sheet refuses it.
fn carry_out(sheet: &mut Sheet, call: Call) -> Result<Answer, Fault>
    ensures replies { Replies call sheet.old (told result) sheet.new }
    ensures sound { Sound sheet.new }
{
    match call {
        Call::Enter {
            place,
            rate,
            safe,
            coverage,
        } => sheet.enter(place, rate, safe, coverage).map(Answer::Row),
        Call::Strike { row } => sheet.strike(row).map(|()| Answer::Done),
        Call::Set {
            place,
            field,
            value,
        } => sheet.set(place, field, value).map(|()| Answer::Done),
        Call::Blank { place, field } => sheet.blank(place, field).map(|()| Answer::Done),
        Call::Mode { letter } => sheet.set_mode(letter).map(|()| Answer::Done),
        Call::Clear => {
            sheet.clear();
            Ok(Answer::Done)
        }
        Call::Show { place } => sheet.show(place).map(Answer::Shown),
    }
}

// Answers the line that has come in, or nothing where it has no words, and empties it for the next. Sheet and line stay two values: a
// struct of the two would hold just what its one user has, and be a name more.
pub fn respond(sheet: &mut Sheet, line: &mut LineBuffer) -> Option<Answer>
    ensures answer { Responds (read_held line.old) sheet.old result sheet.new }
    ensures emptied { line.new ≡ Some [] }
    ensures sound { Sound sheet.new }
{
    // for what always holds of a sheet, which `rows` tells
    let _ = sheet.rows();
    match line.finish() {
        Ok(Some(call)) => Some(carry_out(sheet, call).unwrap_or_else(Answer::Refused)),
        Ok(None) => None,
        Err(why) => Some(Answer::NotCall(why)),
    }
}
