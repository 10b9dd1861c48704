//! What is kept by number: keys, and uploads under way by their connections.

use crate::numbered::HasNumber;
use b2_types::{Flight, Key};

impl HasNumber for Key {
    ghost number_of = { λ k. k.num };

    fn number(&self) -> u32 {
        self.num.get()
    }
}

impl HasNumber for Flight {
    ghost number_of = { λ f. f.conn };

    fn number(&self) -> u32 {
        self.conn.get()
    }
}
