// Members of JSON objects.

ghost use Rattle.std.specs.Prelude.{◌≡◌};
ghost use Rattle.admin.specs.Json.{Adds, flag_member, number_member, option_member, text_member};

use json::Writer;
use std::alloc::AllocError;

// Writes a member with a number.
pub(crate) fn put_number(writer: &mut Writer, name: &str, value: u64) -> Result<(), AllocError>
    ensures { Adds result writer.old writer.new (number_member name.now value) }
{
    writer.key(name)?;
    writer.u64(value)
}

// Writes a member with a number below 256.
pub(crate) fn put_small(writer: &mut Writer, name: &str, value: u8) -> Result<(), AllocError>
    ensures { Adds result writer.old writer.new (number_member name.now value) }
{
    put_number(writer, name, u64::from(value))
}

// Writes a member with a number, or with `null`.
pub(crate) fn put_option(
    writer: &mut Writer,
    name: &str,
    value: Option<u64>,
) -> Result<(), AllocError>
    ensures { Adds result writer.old writer.new (option_member name.now value) }
{
    writer.key(name)?;
    match value {
        Some(value) => writer.u64(value),
        None => writer.null(),
    }
}

// Writes a member with a text.
pub(crate) fn put_text(writer: &mut Writer, name: &str, text: &str) -> Result<(), AllocError>
    ensures { Adds result writer.old writer.new (text_member name.now text.now) }
{
    writer.key(name)?;
    writer.string(text)
}

// Writes a member that is true or false.
pub(crate) fn put_flag(writer: &mut Writer, name: &str, is_so: bool) -> Result<(), AllocError>
    ensures { Adds result writer.old writer.new (flag_member name.now is_so) }
{
    writer.key(name)?;
    writer.boolean(is_so)
}
