// Text copy: a text with its zero byte, from one object to another, or inside one.
ghost use Rattle.std.specs.Prelude.{◌≡◌};
ghost use Rattle.frame.specs.Pointers.{unpack};
ghost use Rattle.store.specs.State.{state, outcome};
ghost use Rattle.store.specs.Calls.{text_at, copy_text_checks, copy_text};
ghost use Rattle.store.specs.Opened.{seen};

use crate::answer::Refusal;
use crate::opening::Opened;
use block::bytes::copy_within;
use block::text::find_text;
use frame::Pointer;

impl Opened<'_> {
    // The text at a pointer: rows 10, 11, 13 for its first byte, and 20; the number is its length.
    fn text_at(&self, pointer: u64) -> Result<u64, Refusal>
        ensures { result ≡ text_at self.now.s (unpack pointer) (seen self.now) }
    {
        let object = self.locate(pointer)?;
        if !object.in_body(1) {
            return Err(Refusal::OutOfBounds);
        }
        let at = Pointer::unpack(pointer).address;
        find_text(self.image, at as usize, object.remaining as usize).ok_or(Refusal::Unterminated)
    }

    // The rows of text copy; the number is how many bytes are copied: the text's length plus one.
    fn text_copyable(&self, target: u64, source: u64) -> Result<u64, Refusal>
        ensures { result ≡ copy_text_checks target source (seen self.now) }
    {
        let n = self.text_at(source)? + 1;
        self.access(target, n)?;
        Ok(n)
    }
}

// Copies the text at the source with its zero byte, as if all of it were read first; the number is how many bytes these are.
pub fn copy_text(image: &mut [u8], table: &[u64], target: u64, source: u64) -> Result<u64, Refusal>
    ensures { outcome result image.new table.now ≡ copy_text target source (state image.old table.now) }
{
    let n = Opened::new(image, table)?.text_copyable(target, source)?;
    let to = Pointer::unpack(target).address;
    let from = Pointer::unpack(source).address;
    copy_within(image, to as usize, from as usize, n as usize);
    Ok(n)
}
