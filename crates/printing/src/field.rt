// A field behind others.
ghost use Rattle.std.specs.Prelude.{◌≡◌, ◌+◌, ◌∷◌, length};

// How many bytes a tab and a field take.
pub(crate) fn field_len(field: &[u8]) -> usize
    ensures { result ≡ length field.now + 1 }
{
    field.len() + 1
}

// A tab and the field, which fill a buffer.
pub(crate) fn write_field(field: &[u8], buffer: &mut [u8])
    requires { length buffer.old ≡ length field.now + 1 }
    ensures { buffer.new ≡ 9 ∷ field.now }
{
    buffer[0] = b'\t';
    buffer[1..].copy_from_slice(field);
}
