// The parts of a line.

ghost use Rattle.std.specs.Prelude.{◌≡◌, IfOk};
ghost use Rattle.script.specs.Fields.{fields_of, parts_of, texts};

use std::alloc::{AllocError, Global};

/// Returns the parts of a line between spaces.
pub fn fields_of<'a>(alloc: Global, line: &'a str) -> Result<Vec<&'a str>, AllocError>
    ensures { IfOk result (λ fields. texts fields.items ≡ fields_of line.now) }
{
    line.split(' ').collect(alloc)
}

/// Returns the parts of a field between commas.
pub fn parts_of<'a>(alloc: Global, field: &'a str) -> Result<Vec<&'a str>, AllocError>
    ensures { IfOk result (λ parts. texts parts.items ≡ parts_of field.now) }
{
    field.split(',').collect(alloc)
}
