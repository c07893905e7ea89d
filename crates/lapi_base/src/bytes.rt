ghost use Rattle.std.specs.Prelude.{◌≡◌, [], ◌∷◌, ◌++◌, IfOk, OnOk, OnErr};

use crate::memory::Memory;
use std::alloc::Global;
use std::marker::Model;
use std::sync::Arc;

/// A list of bytes of any length, which may be shared.
#[derive(Debug, Drop)]
pub struct Bytes {
    body: Body,
}

#[derive(Debug, Drop)]
enum Body {
    Own(Vec<u8>),
    /// Other lists may have the same bytes.
    Shared(Arc<Vec<u8>>),
}

impl Model for Bytes {
    ghost use Rattle.std.specs.Prelude.{List, ℕ};
    ghost use Rattle.lapi_base.specs.Held.{held};

    ghost Value = { List ℕ };

    ghost view = { λ list. held list.body };
}

impl Bytes {
    /// The empty list, which takes no memory yet.
    pub fn new(alloc: Global) -> Bytes
        ensures { result ≡ [] }
    {
        Bytes::from(Vec::new(alloc))
    }

    /// A copy of these bytes.
    pub fn from_slice(alloc: Global, bytes: &[u8]) -> Result<Bytes, Memory>
        ensures { IfOk result (λ copy. copy ≡ bytes.now) }
    {
        let items = Vec::from_slice(alloc, bytes)?;
        Ok(Bytes::from(items))
    }

    /// The list once more. Where it is shared, that is one owner more of its bytes, and copies none.
    pub fn copy(&self, alloc: Global) -> Result<Bytes, Memory>
        ensures { IfOk result (λ copy. copy ≡ self.now) }
    {
        match &self.body {
            Body::Own(items) => Bytes::from_slice(alloc, items.as_slice()),
            Body::Shared(items) => Ok(Bytes {
                body: Body::Shared(items.clone()?),
            }),
        }
    }

    /// The same list, of which each copy shares the bytes.
    pub fn into_shared(self) -> Result<Bytes, Memory>
        ensures { IfOk result (λ shared. shared ≡ self) }
    {
        let items = match self.body {
            Body::Own(items) => Arc::new(*items.allocator(), items)?,
            Body::Shared(items) => items,
        };
        Ok(Bytes {
            body: Body::Shared(items),
        })
    }

    /// Appends a byte. Bytes that are shared are copied first.
    pub fn push(&mut self, item: u8) -> Result<(), Memory>
        ensures ok { OnOk result (self.new ≡ self.old ++ item ∷ []) }
        ensures err { OnErr result (self.new ≡ self.old) }
    {
        match &mut self.body {
            Body::Own(items) => items.push(item)?,
            Body::Shared(items) => {
                let mut own = Vec::from_slice(*items.allocator(), items.as_slice())?;
                own.push(item)?;
                self.body = Body::Own(own);
            }
        }
        Ok(())
    }

    pub fn as_slice(&self) -> &[u8]
        ensures { result.now ≡ self.now }
    {
        match &self.body {
            Body::Own(items) => items.as_slice(),
            Body::Shared(items) => items.as_slice(),
        }
    }
}

impl From<Vec<u8>> for Bytes {
    ghost from_gives = { λ items bytes. bytes ≡ items.items };

    fn from(items: Vec<u8>) -> Bytes {
        Bytes {
            body: Body::Own(items),
        }
    }
}
