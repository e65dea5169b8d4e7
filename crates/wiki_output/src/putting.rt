//! Pieces of text, put behind what is there.
ghost use Rattle.std.specs.Prelude.{◌≡◌, ◌++◌, OnOk};
ghost use Rattle.std.specs.Fmt.{decimal};
ghost use Rattle.wk_tool.specs.WkBaseTitles.{title_text};

use itoa::Buffer;
use wk_tool::{NoMemory, Title, put_bytes};

/// Adds a number in decimal digits.
pub fn put_number(made: &mut Vec<u8>, number: u64) -> Result<(), NoMemory>
    ensures { OnOk result (made.new.items ≡ made.old.items ++ decimal number) }
{
    let mut buffer = Buffer::new();
    put_bytes(made, buffer.format(number).as_bytes())
}

/// Adds a title as it is written.
pub fn put_title(made: &mut Vec<u8>, title: &Title) -> Result<(), NoMemory>
    ensures { OnOk result (made.new.items ≡ made.old.items ++ title_text title.now) }
{
    let text = title.text()?;
    put_bytes(made, text.as_slice())
}
