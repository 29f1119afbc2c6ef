//! The text of a conversion: its certificate, and then each segment with its candidates. Start at [`print`].
//! What the text is: specs/Texts.antt. Its front is the certificate's text of `cert_text`, which reads again.
#![tactic(auto)]

mod writer;

pub use writer::print;
