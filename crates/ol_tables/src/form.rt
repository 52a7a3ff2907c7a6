// The forms of expressions, from their codes in the file.
ghost use Rattle.std.specs.Prelude.{◌≡◌, ◌<◌, min, length, get_or, eqb};
ghost use Rattle.ol_tables.specs.FormCodes.{code_of_form};

// The form of an expression, as its first byte tells: the forms in the order of their codes (docs/FORMAT.md, "Expressions").
#[derive(Clone, Copy)]
pub enum Form {
    Bool,
    Int,
    Float,
    Char,
    Var,
    Unary,
    Binary,
    If,
    Pre,
    Arrow,
    Cast,
    Call,
    Tuple,
    Index,
    Literal,
    Iterator,
}

impl Form {
    // The form of the expression at `at`; that it is in the file is asked, since each caller has just tested it. A byte that is no code, which no file has there that reads without fault, is taken as an Iterator's.
    pub fn at(file: &[u8], at: usize) -> Form
        requires { at < length file.now }
        ensures { min (get_or file.now at 0) 15 ≡ code_of_form result }
    {
        Form::try_from(file[at]).unwrap_or(Form::Iterator)
    }

    // Whether the expression at `at` is of this form.
    pub fn is_at(self, file: &[u8], at: usize) -> bool
        requires { at < length file.now }
        ensures { result ≡ eqb (get_or file.now at 0) (code_of_form self) }
    {
        file[at] == self as u8
    }
}

// A byte that is no form's code.
#[derive(Clone, Copy)]
pub struct NoForm;

impl TryFrom<u8> for Form {
    type Error = NoForm;

    ghost use Rattle.ol_tables.specs.FormCodes.{FormDecodes};

    ghost try_from_gives = { FormDecodes };

    fn try_from(code: u8) -> Result<Self, NoForm> {
        match code {
            0 => Ok(Form::Bool),
            1 => Ok(Form::Int),
            2 => Ok(Form::Float),
            3 => Ok(Form::Char),
            4 => Ok(Form::Var),
            5 => Ok(Form::Unary),
            6 => Ok(Form::Binary),
            7 => Ok(Form::If),
            8 => Ok(Form::Pre),
            9 => Ok(Form::Arrow),
            10 => Ok(Form::Cast),
            11 => Ok(Form::Call),
            12 => Ok(Form::Tuple),
            13 => Ok(Form::Index),
            14 => Ok(Form::Literal),
            15 => Ok(Form::Iterator),
            _ => Err(NoForm),
        }
    }
}
