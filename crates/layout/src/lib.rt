// How a message is laid out, which its caller says: the PCF part alone, or with an embedded header (IBM's MQEPH) in front of it
// and user data behind it. `locate` finds the part, and all else that is asked of a message is asked of its part.
#![tactic(auto)]

mod embedding;
mod part;

pub use embedding::{Embedding, embedding_of, laid_out_length, lengthen, no_embedding, put_around};
pub use part::{Form, HEADER, Layout, MOST_BYTES, Part, first_place, locate};
