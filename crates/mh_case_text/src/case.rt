use std::alloc::{AllocError, Global};

/// A static argument of a call site.
#[derive(Debug, Drop)]
pub enum CaseArgument {
    Integer(i32),
    Long(i64),
    Text(String),
}

impl CaseArgument {
    fn copied(&self, alloc: Global) -> Result<CaseArgument, AllocError> {
        match self {
            CaseArgument::Integer(number) => Ok(CaseArgument::Integer(*number)),
            CaseArgument::Long(number) => Ok(CaseArgument::Long(*number)),
            CaseArgument::Text(text) => {
                Ok(CaseArgument::Text(String::from_str(alloc, text.as_str())?))
            }
        }
    }
}

/// A call site of a class that is made.
#[derive(Debug, Drop)]
pub struct CaseSite {
    /// The name of the script that links it.
    pub script: String,
    pub ty: String,
    pub arguments: Vec<CaseArgument>,
}

impl CaseSite {
    fn copied(&self, alloc: Global) -> Result<CaseSite, AllocError> {
        let mut arguments = Vec::new(alloc);
        for argument in &self.arguments {
            arguments.push(argument.copied(alloc)?)?;
        }
        Ok(CaseSite {
            script: String::from_str(alloc, self.script.as_str())?,
            ty: String::from_str(alloc, self.ty.as_str())?,
            arguments,
        })
    }
}

/// What a file holds: these bytes, or the class that is made for these call sites.
#[derive(Debug, Drop)]
pub enum Contents {
    Bytes(Vec<u8>),
    Sites(Vec<CaseSite>),
}

impl Contents {
    fn copied(&self, alloc: Global) -> Result<Contents, AllocError> {
        match self {
            Contents::Bytes(bytes) => Ok(Contents::Bytes(Vec::from_slice(alloc, bytes)?)),
            Contents::Sites(sites) => {
                let mut copies = Vec::new(alloc);
                for site in sites {
                    copies.push(site.copied(alloc)?)?;
                }
                Ok(Contents::Sites(copies))
            }
        }
    }
}

/// A file that a case has.
#[derive(Debug, Drop)]
pub struct CaseFile {
    pub name: String,
    pub contents: Contents,
}

impl CaseFile {
    pub(crate) fn copied(&self, alloc: Global) -> Result<CaseFile, AllocError> {
        Ok(CaseFile {
            name: String::from_str(alloc, self.name.as_str())?,
            contents: self.contents.copied(alloc)?,
        })
    }
}

/// A run: what it is given, and what it must give.
#[derive(Debug, Drop)]
pub struct Case {
    pub name: String,
    pub words: Vec<String>,
    /// Of two files of one name the later one counts.
    pub files: Vec<CaseFile>,
    /// The numbers of the reads that fail, from 0.
    pub reads: Vec<u64>,
    /// The numbers of the writes that fail, from 0.
    pub writes: Vec<u64>,
    pub status: u8,
    pub text: Vec<u8>,
}
