// The RIFF size of a file's header, by name: as the published form has it, or as stations in the field wrote it before.

ghost use Rattle.std.specs.Prelude.{◌≡◌};
ghost use Rattle.form.specs.Form.{size_field, size_numbered};

// Which number stands in the field.
#[derive(Clone, Copy)]
pub enum Size {
    Published,
    Old,
}

// The field of a file of n samples. The published form counts every byte behind the field; the old value is four less.
pub fn field(size: Size, n: u32) -> u64
    ensures { result ≡ size_field size n }
{
    match size {
        Size::Published => 36 + 2 * u64::from(n),
        Size::Old => 32 + 2 * u64::from(n),
    }
}

// The size that a number stands for: 1 is the old one, and every other number the published one.
pub fn size_of(number: u32) -> Size
    ensures { result ≡ size_numbered number }
{
    if number == 1 {
        Size::Old
    } else {
        Size::Published
    }
}
