//! A frame as the server writes it, and as it is read back: a definition in `specs/`, which the session and the reader of frames
//! cite.
#![tactic(auto)]
