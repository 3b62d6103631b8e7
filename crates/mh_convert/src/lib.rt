//! Conversions of values between types, by the rules of `MethodHandle.asType` and of
//! `MethodHandles.explicitCastArguments`.
#![tactic(auto)]

mod allowed;
mod conv;
mod giving;
mod misfits;
mod narrowing;

pub use allowed::{conversion, ret_conversion};
pub use conv::{Conv, RetConv, Rules};
pub use giving::{convert, default_value, fit};
pub use misfits::misfit;
