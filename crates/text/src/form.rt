// The forms of a line's fields, and the numbers that are read off fields.

ghost use Rattle.std.specs.Prelude.{◌≡◌};
ghost use Rattle.std.specs.List.{list_all, zip};
ghost use Rattle.text.specs.Text.{fields};
ghost use Rattle.text.specs.Form.{has_form, have_forms, hex_at, decimal_at, flag_at};

// What a field of a line holds. A line's first field is a word of N bytes.
#[derive(Clone, Copy)]
pub enum Form<const N: usize> {
    // this word
    Word([u8; N]),
    // a hexadecimal number of so many digits
    Hex(usize),
    // a decimal number of at most so much
    Decimal(u32),
}

// Whether a field has a form.
fn has_form<const N: usize>(f: &[u8], form: &Form<N>) -> bool
    ensures { result ≡ has_form form.now f.now }
{
    match form {
        Form::Word(word) => f == word.as_slice(),
        Form::Hex(digits) => crate::hex(f, *digits).is_some(),
        Form::Decimal(limit) => crate::decimal(f, *limit).is_some(),
    }
}

// Whether each field of a line has the form at its place, as far as both go.
fn fields_fit<const N: usize>(line: &[u8], forms: &[Form<N>]) -> bool
    ensures { result ≡ list_all (λ p. has_form p.1 p.0) (zip (fields line.now) forms.now) }
{
    line.split(|b| *b == b'\t').zip(forms).all(
        |(f, form)| -> bool
            ensures { result ≡ has_form form.entry.now f.entry.now }
        { has_form(f, form) },
    )
}

// Whether a line has as many fields as there are forms, each of its form.
#[tactic(auto, using(crate::proofs::Forms::fit_long))]
pub fn is_line<const N: usize>(line: &[u8], forms: &[Form<N>]) -> bool
    ensures { result ≡ have_forms forms.now (fields line.now) }
{
    crate::part_count(line, b'\t') == forms.len() && fields_fit(line, forms)
}

// The hexadecimal number of so many digits in field k; 0 where there is none.
// Line and place are two parameters here and below: the place is a number that stands in the call.
pub fn hex_at(line: &[u8], digits: usize, k: usize) -> u64
    ensures { result ≡ hex_at digits (fields line.now) k }
{
    crate::hex(crate::field(line, k), digits).unwrap_or(0)
}

// The hexadecimal number of 16 bits in field k; 0 where there is none.
#[tactic(auto, using(crate::proofs::Forms::short_below))]
pub fn short_at(line: &[u8], k: usize) -> u16
    ensures { result ≡ hex_at 4 (fields line.now) k }
{
    hex_at(line, 4, k) as u16
}

// The decimal number in field k; 0 where there is none, or where it is above the limit.
#[tactic(auto, using(crate::proofs::Forms::at_most))]
pub fn decimal_at(line: &[u8], limit: u32, k: usize) -> u32
    ensures { result ≡ decimal_at limit (fields line.now) k }
{
    crate::decimal(crate::field(line, k), limit).unwrap_or(0) as u32
}

// The decimal number of 8 bits in field k; 0 where there is none.
#[tactic(auto, using(crate::proofs::Forms::at_most))]
pub fn byte_at(line: &[u8], k: usize) -> u8
    ensures { result ≡ decimal_at 255 (fields line.now) k }
{
    decimal_at(line, 255, k) as u8
}

// Whether field k is 1, where it may be 0 or 1.
pub fn flag_at(line: &[u8], k: usize) -> bool
    ensures { result ≡ flag_at (fields line.now) k }
{
    decimal_at(line, 1, k) == 1
}
