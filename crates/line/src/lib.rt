// One line of the console: the call that its bytes write, or why they write none, and a call's own text.
// A line is one of these, where S and DC may be `-` for blank:
//     enter PLACE RATE S DC
//     strike ROW
//     set PLACE FIELD VALUE
//     blank PLACE FIELD
//     mode LETTER
//     clear
//     show PLACE
// Its words stand between spaces, tabs, carriage returns and line feeds, and `#` begins a comment.
#![tactic(auto)]

mod buffer;
mod calls;
mod reading;
mod values;
mod words;

pub use buffer::{LINE_LIMIT, LineBuffer};
pub use calls::{Call, NotCall};
pub use reading::read;

// Some lines, with what each is read as.
#[cfg(test)]
mod tests {
    use super::*;
    use std::test::Fail;

    #[test]
    fn calls_are_read(rt: HostRuntime) {
        let enter = Call::Enter {
            place: 3,
            rate: 50000,
            safe: None,
            coverage: Some(900),
        };
        assert_eq!(rt; read(b"enter 3 0050000 - 900"), Ok(Some(enter)));
        assert_eq!(rt;
            read(b"\tset 1 2 4294967295\r\n"),
            Ok(Some(Call::Set {
                place: 1,
                field: 2,
                value: 4294967295,
            }))
        );
        assert_eq!(rt;
            read("mode é# à".as_bytes()),
            Ok(Some(Call::Mode { letter: 'é' }))
        );
        assert_eq!(rt; read(b" # clear"), Ok(None));
    }

    #[test]
    fn other_lines_are_refused(rt: HostRuntime) {
        let lines = [
            ("Clear", NotCall::UnknownName),
            ("strike", NotCall::WordMissing),
            ("strike # 1", NotCall::WordMissing),
            ("strike -", NotCall::NotNumber),
            ("strike +1", NotCall::NotNumber),
            ("strike x y", NotCall::NotNumber),
            ("strike 4294967296 y", NotCall::NumberTooLarge),
            ("strike 1 2", NotCall::TooManyWords),
            ("enter 1 2 - --", NotCall::NotNumber),
            ("mode ab", NotCall::NotLetter),
        ];
        for (line, why) in lines {
            assert_eq!(rt; read(line.as_bytes()), Err(why), "{}", line);
        }
        assert_eq!(rt; read(b"clear # \xff"), Err(NotCall::NotText));
    }

    #[test]
    fn a_line_may_have_4096_bytes(rt: HostRuntime) -> Result<(), Fail> {
        let mut buffer = LineBuffer::new(rt.alloc())?;
        buffer.add(&[b' '; LINE_LIMIT]);
        buffer.add(b"clear");
        assert_eq!(rt; buffer.finish(), Err(NotCall::TooLong));
        buffer.add(&[b' '; 4091]);
        buffer.add(b"clear");
        assert_eq!(rt; buffer.finish(), Ok(Some(Call::Clear)));
        assert_eq!(rt; buffer.finish(), Ok(None));
        Ok(())
    }

    #[test]
    fn calls_are_printed(rt: HostRuntime) -> Result<(), Fail> {
        let call = Call::Enter {
            place: 0,
            rate: 7,
            safe: Some(1000),
            coverage: None,
        };
        assert_eq!(rt;
            format!(in rt.alloc(); "{call}")?.as_str(),
            "enter 0 7 1000 -"
        );
        assert_eq!(rt;
            format!(in rt.alloc(); "{}", NotCall::NotLetter)?.as_str(),
            "not a single character"
        );
        Ok(())
    }
}
