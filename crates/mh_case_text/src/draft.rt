use crate::hex::push_hex;
use crate::{Case, CaseArgument, CaseError, CaseFile, CaseKind, CaseSite, Contents};
use std::alloc::{AllocError, Global};
use std::mem;

/// What the next pieces belong to.
#[derive(Debug, Drop)]
enum Part {
    Head,
    File(CaseFile),
    Text(Vec<u8>),
}

/// A case that has begun.
#[derive(Debug, Drop)]
pub(crate) struct Draft {
    name: String,
    words: Vec<String>,
    /// The files of the case that this one is like.
    shared: Vec<CaseFile>,
    files: Vec<CaseFile>,
    reads: Vec<u64>,
    writes: Vec<u64>,
    status: Option<u8>,
    text: Option<Vec<u8>>,
    part: Part,
}

const BAD_LINE: CaseError = CaseError::Kind(CaseKind::BadLine);

const BAD_NUMBER: CaseError = CaseError::Kind(CaseKind::BadNumber);

const TWICE: CaseError = CaseError::Kind(CaseKind::Twice);

fn push<T: Drop>(items: &mut Vec<T>, item: T) -> Result<(), AllocError> {
    items.push(item)?;
    Ok(())
}

fn push_numbers(numbers: &mut Vec<u64>, text: &str) -> Result<(), CaseError> {
    for word in text.split(' ') {
        let Ok(number) = word.parse::<u64>() else {
            return Err(BAD_NUMBER);
        };
        push(numbers, number)?;
    }
    Ok(())
}

/// A static argument, as `i:5`, `j:5` or `s:text`.
fn argument(alloc: Global, word: &str) -> Result<CaseArgument, CaseError> {
    let Some((kind, text)) = word.split_once(':') else {
        return Err(BAD_LINE);
    };
    match kind.as_bytes() {
        b"i" => match text.parse::<i32>() {
            Ok(number) => Ok(CaseArgument::Integer(number)),
            Err(_) => Err(BAD_NUMBER),
        },
        b"j" => match text.parse::<i64>() {
            Ok(number) => Ok(CaseArgument::Long(number)),
            Err(_) => Err(BAD_NUMBER),
        },
        b"s" => Ok(CaseArgument::Text(String::from_str(alloc, text)?)),
        _ => Err(BAD_LINE),
    }
}

/// A call site: the name of its script, its type and its static arguments.
fn site(alloc: Global, text: &str) -> Result<CaseSite, CaseError> {
    let mut words = text.split(' ');
    let (Some(script), Some(ty)) = (words.next(), words.next()) else {
        return Err(BAD_LINE);
    };
    let mut arguments = Vec::new(alloc);
    for word in words {
        push(&mut arguments, argument(alloc, word)?)?;
    }
    Ok(CaseSite {
        script: String::from_str(alloc, script)?,
        ty: String::from_str(alloc, ty)?,
        arguments,
    })
}

/// How often a piece stands, and the piece, as `*64 |thread`. A piece without a count stands once.
fn counted(line: &str) -> Option<(u32, &str)> {
    let Some(text) = line.strip_prefix('*') else {
        return Some((1, line));
    };
    let (count, piece) = text.split_once(' ')?;
    Some((count.parse::<u32>().ok()?, piece))
}

/// Whether a line is a piece of a file or of the text.
fn is_piece(line: &str) -> bool {
    match line.as_bytes() {
        [b'|' | b'>' | b'*', ..] => true,
        _ => line.starts_with("x ") || line.starts_with("site "),
    }
}

/// Whether a file of this name is among files.
fn has_file(files: &[CaseFile], name: &str) -> bool {
    files.iter().any(|file| file.name.as_str() == name)
}

impl Part {
    /// The bytes that pieces are put after.
    fn bytes(&mut self) -> Option<&mut Vec<u8>> {
        match self {
            Part::Text(bytes) => Some(bytes),
            Part::File(
                CaseFile {
                    name: _,
                    contents: Contents::Bytes(bytes),
                },
            ) => Some(bytes),
            _ => None,
        }
    }

    /// The call sites that a piece is put after.
    fn sites(&mut self) -> Option<&mut Vec<CaseSite>> {
        match self {
            Part::File(
                CaseFile {
                    name: _,
                    contents: Contents::Sites(sites),
                },
            ) => Some(sites),
            _ => None,
        }
    }
}

impl Draft {
    /// A case with only its name.
    pub(crate) fn new(alloc: Global, name: &str) -> Result<Draft, AllocError> {
        Ok(Draft {
            name: String::from_str(alloc, name)?,
            words: Vec::new(alloc),
            shared: Vec::new(alloc),
            files: Vec::new(alloc),
            reads: Vec::new(alloc),
            writes: Vec::new(alloc),
            status: None,
            text: None,
            part: Part::Head,
        })
    }

    /// Ends the file or the text that pieces were put to.
    fn close(&mut self) -> Result<(), CaseError> {
        match mem::replace(&mut self.part, Part::Head) {
            Part::Head => Ok(()),
            Part::File(file) => {
                if has_file(&self.files, file.name.as_str()) {
                    return Err(TWICE);
                }
                push(&mut self.files, file)?;
                Ok(())
            }
            Part::Text(text) => {
                if self.text.is_some() {
                    return Err(TWICE);
                }
                self.text = Some(text);
                Ok(())
            }
        }
    }

    fn open_file(
        &mut self,
        alloc: Global,
        name: &str,
        contents: Contents,
    ) -> Result<(), CaseError> {
        let name = String::from_str(alloc, name)?;
        self.part = Part::File(CaseFile { name, contents });
        Ok(())
    }

    fn add_words(&mut self, alloc: Global, text: &str) -> Result<(), CaseError> {
        for word in text.split(' ') {
            push(&mut self.words, String::from_str(alloc, word)?)?;
        }
        Ok(())
    }

    /// Puts a text and this end after the bytes of the part.
    fn add_text(&mut self, text: &str, end: &str) -> Result<(), CaseError> {
        let Some(bytes) = self.part.bytes() else {
            return Err(BAD_LINE);
        };
        bytes.extend_from_slice(text.as_bytes())?;
        bytes.extend_from_slice(end.as_bytes())?;
        Ok(())
    }

    fn add_hex(&mut self, text: &str) -> Result<(), CaseError> {
        let Some(bytes) = self.part.bytes() else {
            return Err(BAD_LINE);
        };
        if push_hex(bytes, text)? {
            Ok(())
        } else {
            Err(BAD_NUMBER)
        }
    }

    fn add_site(&mut self, alloc: Global, text: &str) -> Result<(), CaseError> {
        let made = site(alloc, text)?;
        let Some(sites) = self.part.sites() else {
            return Err(BAD_LINE);
        };
        push(sites, made)?;
        Ok(())
    }

    /// Puts a piece to the part: a line, a text without an end, bytes, or a call site.
    fn add_piece(&mut self, alloc: Global, piece: &str) -> Result<(), CaseError> {
        if let Some(text) = piece.strip_prefix('|') {
            return self.add_text(text, "\n");
        }
        if let Some(text) = piece.strip_prefix('>') {
            return self.add_text(text, "");
        }
        if let Some(text) = piece.strip_prefix("x ") {
            return self.add_hex(text);
        }
        if let Some(text) = piece.strip_prefix("site ") {
            return self.add_site(alloc, text);
        }
        Err(BAD_LINE)
    }

    fn set_status(&mut self, text: &str) -> Result<(), CaseError> {
        if self.status.is_some() {
            return Err(TWICE);
        }
        let Ok(status) = text.parse::<u8>() else {
            return Err(BAD_NUMBER);
        };
        self.status = Some(status);
        Ok(())
    }

    /// Takes a line that begins with a word, and ends the part before it.
    fn take_word(&mut self, alloc: Global, word: &str, rest: &str) -> Result<(), CaseError> {
        self.close()?;
        match word.as_bytes() {
            b"words" => self.add_words(alloc, rest),
            b"word" => Ok(push(&mut self.words, String::from_str(alloc, rest)?)?),
            b"file" => self.open_file(alloc, rest, Contents::Bytes(Vec::new(alloc))),
            b"made" => self.open_file(alloc, rest, Contents::Sites(Vec::new(alloc))),
            b"reads" => push_numbers(&mut self.reads, rest),
            b"writes" => push_numbers(&mut self.writes, rest),
            b"status" => self.set_status(rest),
            b"text" => {
                self.part = Part::Text(Vec::new(alloc));
                Ok(())
            }
            _ => Err(BAD_LINE),
        }
    }

    /// Takes a line of the case, except its end and `like`.
    pub(crate) fn take_line(&mut self, alloc: Global, line: &str) -> Result<(), CaseError> {
        if is_piece(line) {
            let Some((count, piece)) = counted(line) else {
                return Err(BAD_NUMBER);
            };
            for _ in 0..count {
                self.add_piece(alloc, piece)?;
            }
            return Ok(());
        }
        match line.split_once(' ') {
            Some((word, rest)) => self.take_word(alloc, word, rest),
            None => self.take_word(alloc, line, ""),
        }
    }

    /// Takes the words and the files of another case. Files of the same names take their places.
    pub(crate) fn take_like(&mut self, alloc: Global, case: &Case) -> Result<(), CaseError> {
        self.close()?;
        for word in &case.words {
            push(&mut self.words, String::from_str(alloc, word.as_str())?)?;
        }
        for file in &case.files {
            push(&mut self.shared, file.copied(alloc)?)?;
        }
        Ok(())
    }

    /// The case, at its end.
    pub(crate) fn finish(mut self) -> Result<Case, CaseError> {
        self.close()?;
        let Draft {
            name,
            words,
            shared: mut files,
            files: own,
            reads,
            writes,
            status,
            text,
            part: _,
        } = self;
        for file in own {
            push(&mut files, file)?;
        }
        match (status, text) {
            (Some(status), Some(text)) => Ok(Case {
                name,
                words,
                files,
                reads,
                writes,
                status,
                text,
            }),
            _ => Err(CaseError::Kind(CaseKind::Unfinished)),
        }
    }
}
