// The kind table: of what sort the cell of a record is, what its fields hold, and what else a kind says of it. No other crate knows a
// kind by its number.
#![tactic(auto)]

ghost use Rattle.std.specs.Prelude.{◌≡◌, not, eqb};
ghost use Rattle.kinds.specs.declared.Sort.TheVariants.{Output};
ghost use Rattle.kinds.specs.Kinds.{sort_of, DecodesSort, number_of, is_known, row_of, kind_table, kind_of, field_number, DecodesField, use_of, is_operand_use, is_used, commutes, is_source_sort};

// What a kind keeps in a field: nothing (the field is 0), a label, or an operand, which is a net.
#[derive(Clone, Copy, PartialEq, Eq)]
pub enum Use {
    Unused,
    Label,
    Operand,
}

// The sorts of cells. The number is the byte of the kind in a record; it is had by `as`, since a discriminant is one.
#[derive(Clone, Copy, PartialEq, Eq)]
pub enum Sort {
    Input = 1,
    Output = 2,
    Buf = 3,
    Not = 4,
    And = 5,
    Or = 6,
    Xor = 7,
    Mux = 8,
    Aig = 9,
}

// A byte that is no kind.
#[derive(Clone, Copy, Debug, PartialEq, Eq)]
pub struct NoSort(pub u8);

impl TryFrom<u8> for Sort {
    type Error = NoSort;

    ghost try_from_gives = { DecodesSort };

    #[tactic(auto, using(crate::proofs::Laws::decoding), unfolding(crate::specs::Kinds::sort_of))]
    fn try_from(kind: u8) -> Result<Sort, NoSort> {
        match kind {
            1 => Ok(Sort::Input),
            2 => Ok(Sort::Output),
            3 => Ok(Sort::Buf),
            4 => Ok(Sort::Not),
            5 => Ok(Sort::And),
            6 => Ok(Sort::Or),
            7 => Ok(Sort::Xor),
            8 => Ok(Sort::Mux),
            9 => Ok(Sort::Aig),
            _ => Err(NoSort(kind)),
        }
    }
}

// The fields of a record. The number is the one that refusal 7 gives.
#[derive(Clone, Copy, PartialEq, Eq)]
pub enum Field {
    A = 1,
    B = 2,
    C = 3,
}

// A number that names no field.
#[derive(Clone, Copy, Debug, PartialEq, Eq)]
pub struct NoField(pub u32);

impl TryFrom<u32> for Field {
    type Error = NoField;

    ghost try_from_gives = { DecodesField };

    fn try_from(f: u32) -> Result<Field, NoField> {
        match f {
            1 => Ok(Field::A),
            2 => Ok(Field::B),
            3 => Ok(Field::C),
            _ => Err(NoField(f)),
        }
    }
}

// A row of the kind table.
#[derive(Clone, Copy)]
pub struct Kind {
    pub a: Use,
    pub b: Use,
    pub c: Use,
    // The largest flags byte.
    pub flags: u8,
    pub one_bit: bool,
    // Field a is the same in all bits of a cell.
    pub common_a: bool,
    // What a record adds to the gate count.
    pub gates: u32,
}

// By position, so that the table below has a line for each kind.
fn row(a: Use, b: Use, c: Use, flags: u8, one_bit: bool, common_a: bool, gates: u32) -> Kind
    ensures { result ≡ row_of a b c flags one_bit common_a gates }
{
    Kind {
        a,
        b,
        c,
        flags,
        one_bit,
        common_a,
        gates,
    }
}

// The kind table.
fn kind_table(s: Sort) -> Kind
    ensures { result ≡ kind_table s }
{
    match s {
        Sort::Input => row(Use::Label, Use::Unused, Use::Unused, 0, false, true, 0),
        Sort::Output => row(Use::Operand, Use::Label, Use::Unused, 0, true, false, 0),
        Sort::Buf => row(Use::Operand, Use::Unused, Use::Unused, 0, false, false, 0),
        Sort::Not => row(Use::Operand, Use::Unused, Use::Unused, 0, false, false, 0),
        Sort::And => row(Use::Operand, Use::Operand, Use::Unused, 0, false, false, 1),
        Sort::Or => row(Use::Operand, Use::Operand, Use::Unused, 0, false, false, 1),
        Sort::Xor => row(Use::Operand, Use::Operand, Use::Unused, 0, false, false, 1),
        Sort::Mux => row(Use::Operand, Use::Operand, Use::Operand, 0, false, true, 1),
        Sort::Aig => row(Use::Operand, Use::Operand, Use::Unused, 3, true, false, 1),
    }
}

// The row of a kind; what is no kind uses nothing. No Option: those who read a row have to read one for any byte.
#[tactic(auto, unfolding(crate::specs::Kinds::kind_of))]
pub fn kind_of(kind: u8) -> Kind
    ensures { result ≡ kind_of kind }
{
    match Sort::try_from(kind) {
        Ok(s) => kind_table(s),
        Err(_) => row(Use::Unused, Use::Unused, Use::Unused, 0, false, false, 0),
    }
}

impl Kind {
    // What it keeps in a field.
    #[tactic(auto, unfolding(crate::specs::Kinds::use_of))]
    pub fn use_of(self, f: Field) -> Use
        ensures { result ≡ use_of self (field_number f) }
    {
        match f {
            Field::A => self.a,
            Field::B => self.b,
            Field::C => self.c,
        }
    }
}

// The use of a field by its number, for who has no `Field`: that alone would be a narrower parameter; what names no field is unused.
#[tactic(auto, unfolding(crate::specs::Kinds::use_of))]
pub fn use_of(k: Kind, f: u32) -> Use
    ensures { result ≡ use_of k f }
{
    match Field::try_from(f) {
        Ok(f) => k.use_of(f),
        Err(_) => Use::Unused,
    }
}

impl Use {
    pub fn is_operand(self) -> bool
        ensures { result ≡ is_operand_use self }
    {
        self == Use::Operand
    }
}

// Tests of the table by ranges of kind numbers: they do not branch on the kind, which is hard to predict. (A single `2 | 5..=9` would, in
// a choice between two numbers.)
#[tactic(auto, using(crate::proofs::Tests::tests))]
pub fn is_known(kind: u8) -> bool
    ensures { result ≡ is_known kind }
{
    matches!(kind, 1..=9)
}

// Whether field a, b or c holds a net. Three functions, as `netlist::fields` asks for each field alone; by `Field` the three ranges would be its
// arms, no shorter.
#[tactic(auto, using(crate::proofs::Tests::tests))]
pub fn net_in_a(kind: u8) -> bool
    ensures { result ≡ is_operand_use (kind_of kind).a }
{
    matches!(kind, 2..=9)
}

#[tactic(auto, using(crate::proofs::Tests::tests))]
pub fn net_in_b(kind: u8) -> bool
    ensures { result ≡ is_operand_use (kind_of kind).b }
{
    matches!(kind, 5..=9)
}

#[tactic(auto, using(crate::proofs::Tests::tests))]
pub fn net_in_c(kind: u8) -> bool
    ensures { result ≡ is_operand_use (kind_of kind).c }
{
    kind == Sort::Mux as u8
}

pub fn is_output(kind: u8) -> bool
    ensures { result ≡ eqb kind (number_of Output) }
{
    kind == Sort::Output as u8
}

// Whether field b holds anything.
#[tactic(auto, using(crate::proofs::Tests::tests))]
pub fn uses_b(kind: u8) -> bool
    ensures { result ≡ is_used (kind_of kind).b }
{
    is_output(kind) || matches!(kind, 5..=9)
}

// Whether a flag may be set.
#[tactic(auto, using(crate::proofs::Tests::tests))]
pub fn has_flags(kind: u8) -> bool
    ensures { result ≡ not (eqb (kind_of kind).flags 0) }
{
    kind == Sort::Aig as u8
}

// Whether operands a and b may be exchanged.
#[tactic(auto, using(crate::proofs::Tests::tests))]
pub fn operands_commute(kind: u8) -> bool
    ensures { result ≡ commutes (sort_of kind) }
{
    kind == Sort::Aig as u8 || matches!(kind, 5..=7)
}

// Whether the level of the cell is given.
#[tactic(auto, using(crate::proofs::Tests::tests))]
pub fn is_source(kind: u8) -> bool
    ensures { result ≡ is_source_sort (sort_of kind) }
{
    kind == Sort::Input as u8
}
