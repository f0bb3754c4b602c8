//! What an old file's tables say: the codes of its laboratories, and each of them whole.
pub use lab_move_read::{KeptFault, codes, whole};
