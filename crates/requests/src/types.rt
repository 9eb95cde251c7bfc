use actions::types::Arguments;
use wire::types::Kind;

// A request: what its signed text says, the text and the tag over it, and what is asked.
#[derive(Clone, Copy)]
pub struct Request<'a> {
    pub kind: Kind,
    pub control_number: u16,
    pub key_number: u64,
    pub number: u64,
    pub signer: [u8; 20],
    pub text: &'a [u8],
    pub tag: &'a [u8],
    pub arguments: Arguments<'a>,
}
