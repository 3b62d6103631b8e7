//! What the product asks of the outside: where its bytes come from, and where its text goes.
#![tactic(auto)]

mod copies;
mod files;
mod gate;
mod honest;
mod inputs;
mod memory;
mod opens;
mod real;
mod sink;
mod whole;
mod words;
mod written;

pub use copies::copy_from;
pub use files::OpenedInputs;
pub use gate::{Gate, OpenGate, TestGate};
pub use honest::{HonestInputs, HonestSink};
pub use inputs::{Failed, Inputs};
pub use memory::{MemoryInputs, MemorySink};
pub use opens::Opens;
pub use real::{RealFiles, RealInputs, RealSink, real_inputs, real_sink};
pub use sink::Sink;
pub use whole::{ReadWhole, read_whole, write_whole};
pub use words::{all_words, texts_of};
pub use written::WriterSink;
