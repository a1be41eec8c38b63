//! Laws of the fields of a line, of all lines. Each is a contract without a call, so its body is empty.

ghost use Rattle.dz_script.specs.Laws.{FieldsAreTheLine};

/// The fields of a line, with one space between each two, are the line, and no field has a space.
pub fn fields_are_the_line()
    ensures { FieldsAreTheLine }
{}
