//! Codes of errors: the causes for which a frame is not read.
ghost use Rattle.std.specs.Prelude.{◌≡◌};
ghost use Rattle.list_types.specs.declared.memory.Refusal.TheVariants as refusals;
ghost use Rattle.h2_frames.specs.Codes.{code_number};

use list_types::Refusal;

/// A code of an error (RFC 9113, section 7). Its number is the variant's value.
#[derive(Clone, Copy)]
pub enum H2Code {
    NoError = 0,
    ProtocolError = 1,
    InternalError = 2,
    FlowControlError = 3,
    SettingsTimeout = 4,
    StreamClosed = 5,
    FrameSizeError = 6,
    RefusedStream = 7,
    Cancel = 8,
    CompressionError = 9,
    ConnectError = 10,
    EnhanceYourCalm = 11,
    InadequateSecurity = 12,
    Http11Required = 13,
}

impl H2Code {
    /// The code's number.
    pub fn number(self) -> u32
        ensures { result ≡ code_number self }
    {
        self as u32
    }
}

impl From<H2Code> for Refusal<H2Code> {
    ghost from_gives = { λ code e. e ≡ refusals.For code };

    fn from(code: H2Code) -> Refusal<H2Code> {
        Refusal::For(code)
    }
}
