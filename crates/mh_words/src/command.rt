/// The names of the inputs of a run.
#[derive(Debug, Drop)]
pub struct Names<'a> {
    pub leaves: &'a str,
    pub scripts: &'a str,
    pub plan: &'a str,
    /// The class files in the order of the words, at most 64.
    pub classes: Vec<&'a str>,
    /// How many workers link all call sites before the calls, at most 16; none if it is 0.
    pub workers: u32,
}

/// What the words ask for.
#[derive(Debug, Drop)]
pub enum Command<'a> {
    /// A run of these inputs.
    Run(Names<'a>),
    /// The listing of the call sites of these class files, at most 64.
    Sites(Vec<&'a str>),
    /// A run of the input that is made from this number, of at most six digits.
    Generate(u32),
}
