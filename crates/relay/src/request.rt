// What a line asks for. Bytes that a line gives are decoded into buffers, and told by their number.
ghost use Rattle.std.specs.Prelude.{◌≡◌, ◌+◌, ◌≤◌, length, take, ok_or, MatchResult};
ghost use Rattle.relay_text.specs.Text.{bytes_of, number_of};
ghost use Rattle.relay_text.specs.Lines.{word_text};
ghost use Rattle.relay.specs.Requests.{command_of, fits_words, lengths_of, asked_by, is_silent, asks};
ghost use Rattle.relay.specs.Reply.{reason_text};
ghost use Rattle.relay.specs.Kept.{asked};
ghost use Rattle.relay.specs.declared.request.Reason.TheVariants as Why;

use relay_text::answers::{bytes_of, number_of};
use relay_text::{nth, words};

// The command that a line's first word names.
#[derive(Clone, Copy)]
pub enum Command {
    File,
    Order,
    Start,
    Load,
    Cycle,
    At,
}

// The lengths of the new state and of the values that a cycle is lent.
#[derive(Clone, Copy)]
pub struct Lent {
    pub state: usize,
    pub values: usize,
}

// Why a line is not obeyed.
#[derive(Clone, Copy)]
pub enum Reason {
    LineTooLong,
    UnknownCommand,
    WrongWords,
    MalformedNumber,
    MalformedHexadecimal,
    NoFile,
}

impl Reason {
    // The reason, as the answer tells it. Display would write it through a Formatter, whose Result may be an error, and could not say that it is short.
    pub(crate) fn text(self) -> &'static [u8]
        ensures text { result.now ≡ reason_text self }
        ensures short { length result.now ≤ 32 }
    {
        match self {
            Reason::LineTooLong => b"line too long",
            Reason::UnknownCommand => b"unknown command",
            Reason::WrongWords => b"wrong number of words",
            Reason::MalformedNumber => b"malformed number",
            Reason::MalformedHexadecimal => b"malformed hexadecimal",
            Reason::NoFile => b"no file",
        }
    }
}

// What is asked about the file that is open: a state and inputs of so many bytes, and the lengths that the line gives.
#[derive(Clone, Copy)]
pub enum Query {
    Order(usize),
    Start,
    Load(usize),
    Cycle(usize, Option<Lent>),
    At(usize, usize, Option<Lent>),
}

// What a line asks for: nothing, a file of so many bytes, or something about the file that is open.
#[derive(Clone, Copy)]
pub enum Request {
    Silent,
    File(usize),
    About(Query),
}

// The most characters that a line may have.
const LONGEST: usize = 262144;

// The command that a word names.
#[tactic(auto, using(crate::proofs::Asks::unknown_word))]
fn command_named(word: &[u8]) -> Result<Command, Reason>
    ensures { result ≡ command_of word.now }
{
    match word {
        b"file" => Ok(Command::File),
        b"order" => Ok(Command::Order),
        b"start" => Ok(Command::Start),
        b"load" => Ok(Command::Load),
        b"cycle" => Ok(Command::Cycle),
        b"at" => Ok(Command::At),
        _ => Err(Reason::UnknownCommand),
    }
}

// Whether a command may have so many words, its own included.
fn fits(c: Command, words: usize) -> bool
    ensures { result ≡ fits_words c words }
{
    match c {
        Command::Start => words == 1,
        Command::File | Command::Order | Command::Load => words == 2,
        Command::Cycle => words == 2 || words == 4,
        Command::At => words == 3 || words == 5,
    }
}

// Whether the line says nothing: it has no word, or begins with #.
fn is_silent(line: &[u8]) -> bool
    ensures { result ≡ is_silent line.now }
{
    let at = nth(line, 0).from;
    at == line.len() || line[at] == b'#'
}

// The number that the line's word number k stands for.
fn number(line: &[u8], k: usize) -> Result<usize, Reason>
    ensures { result ≡ ok_or (number_of (word_text line.now k)) Why.MalformedNumber }
{
    number_of(line, k).ok_or(Reason::MalformedNumber)
}

// The bytes that the line's word number k stands for, at the start of `bytes`.
fn hexadecimal(line: &[u8], k: usize, bytes: &mut [u8]) -> Result<usize, Reason>
    requires { length line.now ≤ length bytes.old + length bytes.old }
    ensures { MatchResult result (λ n. bytes_of (word_text line.now k) ≡ Some (take n bytes.new)) (λ why. (why ≡ Why.MalformedHexadecimal) × (bytes_of (word_text line.now k) ≡ None)) }
{
    bytes_of(line, k, bytes).ok_or(Reason::MalformedHexadecimal)
}

// The lengths that a line gives from its word number k on, if it goes on so far.
fn lengths_of(line: &[u8], k: usize) -> Result<Option<Lent>, Reason>
    requires { k ≤ 3 }
    ensures { result ≡ lengths_of line.now k }
{
    if words(line) <= k {
        return Ok(None);
    }
    let state = number(line, k)?;
    let values = number(line, k + 1)?;
    Ok(Some(Lent { state, values }))
}

// What a line asks for that begins with this command.
fn ask_by(c: Command, line: &[u8], bytes: &mut [u8], inputs: &mut [u8]) -> Result<Request, Reason>
    requires { (length line.now ≤ length bytes.old + length bytes.old) × (length line.now ≤ length inputs.old + length inputs.old) }
    ensures { asked_by c line.now ≡ asked result bytes.new inputs.new }
{
    match c {
        Command::File => {
            let n = hexadecimal(line, 1, bytes)?;
            Ok(Request::File(n))
        }
        Command::Order => {
            let node = number(line, 1)?;
            Ok(Request::About(Query::Order(node)))
        }
        Command::Start => Ok(Request::About(Query::Start)),
        Command::Load => {
            let n = hexadecimal(line, 1, bytes)?;
            Ok(Request::About(Query::Load(n)))
        }
        Command::Cycle => {
            let lent = lengths_of(line, 2)?;
            let n = hexadecimal(line, 1, inputs)?;
            Ok(Request::About(Query::Cycle(n, lent)))
        }
        Command::At => {
            let lent = lengths_of(line, 3)?;
            let n = hexadecimal(line, 2, inputs)?;
            let k = hexadecimal(line, 1, bytes)?;
            Ok(Request::About(Query::At(k, n, lent)))
        }
    }
}

// What a line asks for. The buffers get the bytes that it gives.
pub(crate) fn ask(
    line: &[u8],
    bytes: &mut [u8; 131072],
    inputs: &mut [u8; 131072],
) -> Result<Request, Reason>
    ensures { asks line.now ≡ asked result bytes.new inputs.new }
{
    if line.len() > LONGEST {
        return Err(Reason::LineTooLong);
    }
    if is_silent(line) {
        return Ok(Request::Silent);
    }
    let w = nth(line, 0);
    let c = command_named(&line[w.from..w.to])?;
    if !fits(c, words(line)) {
        return Err(Reason::WrongWords);
    }
    ask_by(c, line, bytes, inputs)
}
