//! The frames and notices that an endpoint produces. Both lists have a fixed capacity and are stored inline, so clearing one only resets
//! its length.
ghost use Rattle.std.specs.Prelude.{◌≡◌, ◌<◌, ◌≤◌, [], ◌∷◌, ◌++◌, length};

use crate::Notice;
use segmenting::BLOCK_OCTETS;
use std::marker::Model;

/// The frames that an endpoint sends and the notices that it reports when it handles one call or one received frame. They take some 850
/// octets, because each notice may hold a message.
#[derive(Debug, Drop)]
pub struct Effects {
    pub frames: Frames,
    pub notices: Notices,
}

impl Effects {
    pub fn new() -> Effects
        ensures frames { result.frames ≡ [] }
        ensures notices { result.notices ≡ [] }
    {
        Effects {
            frames: Frames::new(),
            notices: Notices::new(),
        }
    }

    pub fn clear(&mut self)
        ensures frames { self.new.frames ≡ [] }
        ensures notices { self.new.notices ≡ [] }
    {
        self.frames.clear();
        self.notices.clear();
    }
}

/// A list of at most two blocks, in sending order.
#[derive(Debug, Drop)]
pub struct Frames {
    blocks: [[u8; BLOCK_OCTETS]; 2],
    len: usize,
}

// Contracts treat a `Frames` value as a list of blocks, each a list of octets.
impl Model for Frames {
    ghost use Rattle.std.specs.Prelude.{◌≤◌, List, ℕ, take};

    ghost Value = { List (List ℕ) };

    ghost view = { λ f. take f.len f.blocks };

    ghost invariant = { λ f. f.len ≤ 2 };
}

impl Frames {
    pub fn new() -> Frames
        ensures { result ≡ [] }
    {
        Frames {
            blocks: [[0; BLOCK_OCTETS]; 2],
            len: 0,
        }
    }

    pub fn clear(&mut self)
        ensures { self.new ≡ [] }
    {
        self.len = 0;
    }

    pub fn push(&mut self, block: [u8; BLOCK_OCTETS])
        requires { length self.old < 2 }
        ensures { self.new ≡ self.old ++ block ∷ [] }
    {
        let len = self.len;
        self.blocks[len] = block;
        self.len = len + 1;
    }

    pub fn as_slice(&self) -> &[[u8; BLOCK_OCTETS]]
        ensures value { result.now ≡ self.now }
        ensures fits { length result.now ≤ 2 }
    {
        &self.blocks[..self.len]
    }
}

/// A list of at most three notices, in reporting order.
#[derive(Debug, Drop)]
pub struct Notices {
    items: [Notice; 3],
    len: usize,
}

// Contracts treat a `Notices` value as a list of notices.
impl Model for Notices {
    ghost use Rattle.std.specs.Prelude.{◌≤◌, List, take};
    ghost use Rattle.lapdm_window.specs.declared.Notice.{Notice};

    ghost Value = { List Notice };

    ghost view = { λ n. take n.len n.items };

    ghost invariant = { λ n. n.len ≤ 3 };
}

impl Notices {
    pub fn new() -> Notices
        ensures { result ≡ [] }
    {
        // Unused elements hold a notice with a field. For a notice without a field, the compiler would build a temporary and copy it.
        Notices {
            items: [Notice::Acked(0), Notice::Acked(0), Notice::Acked(0)],
            len: 0,
        }
    }

    pub fn clear(&mut self)
        ensures { self.new ≡ [] }
    {
        self.len = 0;
    }

    pub fn push(&mut self, notice: Notice)
        requires { length self.old < 3 }
        ensures { self.new ≡ self.old ++ notice ∷ [] }
    {
        let len = self.len;
        self.items[len] = notice;
        self.len = len + 1;
    }

    pub fn as_slice(&self) -> &[Notice]
        ensures value { result.now ≡ self.now }
        ensures fits { length result.now ≤ 3 }
    {
        &self.items[..self.len]
    }
}
