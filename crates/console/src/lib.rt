// The console over a sheet: what each line is answered, and the text that an answer is printed as.
#![tactic(auto)]

mod answers;
mod reply;
mod text;

pub use answers::Answer;
pub use reply::respond;

#[cfg(test)]
mod tests {
    use super::*;
    use line::LineBuffer;
    use sheet::{Fault, Percentages, Sheet};
    use std::alloc::{AllocError, Global};
    use std::test::Fail;

    #[test]
    fn answers_are_printed(rt: HostRuntime) -> Result<(), Fail> {
        let heap = rt.alloc();
        let shown = Answer::Shown(Percentages {
            sff: 1000,
            diagnostic_coverage: None,
        });
        assert_eq!(rt; format!(in heap; "{shown}")?.as_str(), "sff 100.0 dc -");
        let refused = Answer::Refused(Fault::ValueOutside { place: 0, field: 7 });
        assert_eq!(rt;
            format!(in heap; "{refused}")?.as_str(),
            "refused 7 place 0 item 7 layer 1: value outside the limits of its field"
        );
        Ok(())
    }

    // What a line is answered, as text.
    fn answer_to(
        heap: Global,
        sheet: &mut Sheet,
        line: &str,
    ) -> Result<Option<String>, AllocError> {
        let mut buffer = LineBuffer::new(heap)?;
        buffer.add(line.as_bytes());
        respond(sheet, &mut buffer)
            .map(|answer| format!(in heap; "{answer}"))
            .transpose()
    }

    #[test]
    fn lines_are_answered(rt: HostRuntime) -> Result<(), Fail> {
        let heap = rt.alloc();
        let mut sheet = Sheet::new(heap)?;
        let refused = answer_to(heap, &mut sheet, "strike 3")?.ok_or("no answer")?;
        assert_eq!(rt; refused.as_str(), "refused 5 item 3 layer 1: no such row");
        let wrong = answer_to(heap, &mut sheet, "strike")?.ok_or("no answer")?;
        assert_eq!(rt; wrong.as_str(), "not a call: a word is missing");
        assert!(rt; answer_to(heap, &mut sheet, "# a comment")?.is_none());
        Ok(())
    }
}
