use crate::status::Status;

/// The text that answers an input, and the status that it ends with.
#[derive(Debug, Drop)]
pub struct Answered {
    pub text: Vec<u8>,
    pub ending: Status,
}
