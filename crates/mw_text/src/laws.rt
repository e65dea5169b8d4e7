//! A law: `tag` writes the values of attributes as `encode` writes texts.
ghost use Rattle.std.specs.Prelude.{◌≡◌, IsUtf8, chars};
ghost use Rattle.mw_text.specs.References.{is_special, encoded};
ghost use Rattle.mw_text.specs.Tag.{encode};

/// The law that a value in UTF-8 stands in a tag as `encode` gives it with its usual set, though the tag is written byte by
/// byte.
#[tactic(auto, using(crate::proofs::Values::value_written))]
pub fn value_is_encoded(value: &[u8])
    requires text { IsUtf8 value.now }
    ensures { encode value.now ≡ encoded is_special (chars value.now) }
{
    let _same = value;
}
