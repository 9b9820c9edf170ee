//! The text that tells why a text has no tokens.

ghost use Rattle.std.specs.Prelude.{◌≡◌, ◌++◌, OnOk, OnErr};
ghost use Rattle.gp_values.specs.Texts.{IsBegun};
ghost use Rattle.gp_tokens.specs.FaultText.{lex_text};
ghost use Rattle.gp_tokens.specs.inside.FaultParts.{kind_text, offset_of};

use crate::fault::LexFault;
use gp_memory::NoMemory;
use itoa::Buffer;

impl LexFault {
    // The kind of the fault, before its offset.
    pub(crate) fn kind(&self) -> &'static str
        ensures { result.now ≡ kind_text self.now }
    {
        match self {
            LexFault::BadByte(_) => "BadByte ",
            LexFault::OpenString(_) => "OpenString ",
            LexFault::OpenComment(_) => "OpenComment ",
            LexFault::NumberTooLong(_) => "NumberTooLong ",
            LexFault::NoMemory => "NoMemory",
        }
    }

    pub(crate) fn offset(&self) -> Option<u64>
        ensures { result ≡ offset_of self.now }
    {
        match self {
            LexFault::BadByte(offset)
            | LexFault::OpenString(offset)
            | LexFault::OpenComment(offset)
            | LexFault::NumberTooLong(offset) => Some(*offset),
            LexFault::NoMemory => None,
        }
    }

    /// Puts the kind of the fault and its offset behind what `text` holds. On refusal `text` holds what it held, and behind
    /// it a beginning of these.
    #[tactic(auto, using(crate::proofs::FaultTexts::lex_text_is))]
    pub fn write_text(&self, text: &mut Vec<u8>) -> Result<(), NoMemory>
        ensures ok { OnOk result (text.new.items ≡ text.old.items ++ lex_text self.now) }
        ensures err { OnErr result (IsBegun (lex_text self.now) text.old.items text.new.items) }
    {
        text.extend_from_slice(self.kind().as_bytes())?;
        if let Some(offset) = self.offset() {
            text.extend_from_slice(Buffer::new().format(offset).as_bytes())?;
        }
        Ok(())
    }
}
