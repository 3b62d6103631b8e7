use crate::draft::Draft;
use crate::{Case, CaseError, CaseFault, CaseKind};
use mh_base::{LineError, NoMemory, is_passed};
use std::alloc::Global;

/// Why cases were not read: no memory is left, or a line is wrong.
pub type ReadCases = LineError<CaseFault>;

/// What was read of a text so far.
#[derive(Debug, Drop)]
struct Reading {
    cases: Vec<Case>,
    draft: Option<Draft>,
}

/// The case of a name.
fn find<'c>(cases: &'c [Case], name: &str) -> Option<&'c Case> {
    cases.iter().find(|case| case.name.as_str() == name)
}

impl Reading {
    /// Begins a case, which a line outside of all cases must do.
    fn begin(&mut self, alloc: Global, line: &str) -> Result<(), CaseError> {
        let Some(name) = line.strip_prefix("case ") else {
            return Err(CaseError::Kind(CaseKind::Outside));
        };
        self.draft = Some(Draft::new(alloc, name)?);
        Ok(())
    }

    /// Takes a line of a case.
    fn go_on(&mut self, alloc: Global, mut draft: Draft, line: &str) -> Result<(), CaseError> {
        if line == "end" {
            let case = draft.finish()?;
            self.cases.push(case).map_err(NoMemory::from)?;
            return Ok(());
        }
        match line.strip_prefix("like ") {
            None => draft.take_line(alloc, line)?,
            Some(name) => match find(&self.cases, name) {
                Some(case) => draft.take_like(alloc, case)?,
                None => return Err(CaseError::Kind(CaseKind::NoCase)),
            },
        }
        self.draft = Some(draft);
        Ok(())
    }

    fn take_line(&mut self, alloc: Global, line: &str) -> Result<(), CaseError> {
        if is_passed(line.as_bytes()) {
            return Ok(());
        }
        match self.draft.take() {
            Some(draft) => self.go_on(alloc, draft, line),
            None => self.begin(alloc, line),
        }
    }
}

/// The cases of a text, in order; or the first line that is wrong, which is the last one if the
/// text ends within a case. Empty lines and those with `#` in front are passed over. A case has
/// these lines:
///
/// - `case NAME` begins it, and `end` ends it;
/// - `like NAME` takes the words and files of a case above it; its own files count instead of those
///   of the same names;
/// - `words WORD ..` adds words, and `word TEXT` one word, which may be empty or have spaces;
/// - `file NAME` begins a file and `text` the text that is wanted; their pieces follow;
/// - `made NAME` begins a class that is made; the pieces that follow are its call sites;
/// - `reads N ..` and `writes N ..` are the numbers of the reads and writes that fail, from 0;
/// - `status N` is the status that is wanted.
///
/// A piece is `|LINE`, `>TEXT` without an end of line, or `x HEX` for bytes; of a made class it is
/// `site SCRIPT TYPE ARGUMENT ..`, with arguments as `i:5`, `j:5` and `s:text`. `*N PIECE` stands N
/// times.
pub fn read_cases(alloc: Global, text: &str) -> Result<Vec<Case>, ReadCases> {
    let mut reading = Reading {
        cases: Vec::new(alloc),
        draft: None,
    };
    let mut number = 0u32;
    for line in text.split('\n') {
        number = number.saturating_add(1);
        match reading.take_line(alloc, line) {
            Ok(()) => {}
            Err(LineError::NoMemory) => return Err(LineError::NoMemory),
            Err(LineError::Kind(kind)) => {
                return Err(LineError::Kind(CaseFault { line: number, kind }));
            }
        }
    }
    let Reading { cases, draft } = reading;
    if draft.is_some() {
        return Err(LineError::Kind(CaseFault {
            line: number,
            kind: CaseKind::Unfinished,
        }));
    }
    Ok(cases)
}
