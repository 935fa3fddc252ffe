//! The statements of a script.
ghost use Rattle.std.specs.Prelude.{◌≡◌, ◌≤◌, ◌<◌, ◌+◌, ◌^◌, ◌++◌, ◌∷◌, [], List, ℕ, IfOk, OnOk};
ghost use Rattle.rm_lang_token.specs.Tokens.{feeds, line_after, lexeme, placed, tokens_from};
ghost use Rattle.rm_lang_token.specs.Statements.{begins_run, ends_at, depth_after, line_of, cut, left_over, statements};
ghost use Rattle.rm_lang_token.specs.{Splitter.{begun_of}, declared.token.Token.{Token as TokenOf}};

use crate::scan::{Lexeme, front_lexeme};
use crate::token::Token;
use rm_base::{NoMemory, Seq};
use std::alloc::Global;
use std::mem;

fn begins_run(front: &[Token]) -> bool
    ensures { result ≡ begins_run front.now }
{
    match front {
        [first, ..] => first.is_word(b"RUN"),
        [] => false,
    }
}

// A statement ends at this token.
fn ends_at(front: &[Token], depth: usize, token: &Token) -> bool
    ensures { result ≡ ends_at front.now depth token.now }
{
    (depth == 0 && token.is_sign(b';')) || (begins_run(front) && depth == 1 && token.is_sign(b'}'))
}

// How many braces are open after a token.
fn depth_after(depth: usize, token: &Token) -> usize
    requires { depth + 1 < 2 ^ 64 }
    ensures { result ≡ depth_after depth token.now }
{
    if token.is_sign(b'{') {
        depth + 1
    } else if token.is_sign(b'}') {
        depth.saturating_sub(1)
    } else {
        depth
    }
}

// A statement that has begun, and those that ended before.
#[derive(Drop)]
struct Splitter {
    alloc: Global,
    done: Vec<(u32, Seq<Token>)>,
    front: Vec<Token>,
    line: u32,
    depth: usize,
}

impl Splitter {
    fn add(&mut self, line: u32, token: Token) -> Result<(), NoMemory>
        requires { self.old.depth + 1 < 2 ^ 64 }
        ensures cut { OnOk result ((rest : List (ℕ × TokenOf)) → self.new.done.items ++ cut (begun_of self.new) rest ≡ self.old.done.items ++ cut (begun_of self.old) ((line, token) ∷ rest)) }
        ensures depth { OnOk result (self.new.depth < self.old.depth + 2) }
    {
        self.line = self.line_of(line);
        if self.front.is_empty() && token.is_sign(b';') {
            self.depth = 0;
            return Ok(());
        }
        let depth = self.depth;
        let ends = ends_at(&self.front, depth, &token);
        self.depth = depth_after(depth, &token);
        self.front.push(token)?;
        if ends {
            return self.end();
        }
        Ok(())
    }

    // The line of the first token of the statement, where one stands on this line.
    fn line_of(&self, line: u32) -> u32
        ensures { result ≡ line_of (begun_of self.now) line }
    {
        if self.front.is_empty() {
            line
        } else {
            self.line
        }
    }

    // The statement ends here.
    fn end(&mut self) -> Result<(), NoMemory>
        ensures done { OnOk result (self.new.done.items ≡ self.old.done.items ++ (self.old.line, self.old.front.items) ∷ []) }
        ensures begun { OnOk result (begun_of self.new ≡ record { front = []; line = self.old.line; depth = 0 }) }
    {
        let front = mem::replace(&mut self.front, Vec::new(self.alloc));
        self.done.push((self.line, Seq::from_vec(front)))?;
        self.depth = 0;
        Ok(())
    }

    // The statements, where the script ends.
    fn close(self) -> Result<Seq<(u32, Seq<Token>)>, NoMemory>
        ensures { IfOk result (λ found. found ≡ self.done.items ++ left_over (begun_of self)) }
    {
        let Splitter {
            mut done,
            front,
            line,
            ..
        } = self;
        if !front.is_empty() {
            done.push((line, Seq::from_vec(front)))?;
        }
        Ok(Seq::from_vec(done))
    }

    // What begins with this byte of this line, where rest is behind it. The size of the lexeme is told.
    fn take(&mut self, line: u32, byte: u8, rest: &[u8]) -> Result<usize, NoMemory>
        requires { self.old.depth + 1 < 2 ^ 64 }
        ensures size { IfOk result (λ size. size ≡ (lexeme byte rest.now).size) }
        ensures cut { OnOk result ((ps : List (ℕ × TokenOf)) → self.new.done.items ++ cut (begun_of self.new) ps ≡ self.old.done.items ++ cut (begun_of self.old) (placed line (lexeme byte rest.now).token ++ ps)) }
        ensures depth { OnOk result (self.new.depth < self.old.depth + 2) }
    {
        let Lexeme { size, token } = front_lexeme(self.alloc, byte, rest)?;
        match token {
            Some(token) => {
                self.add(line, token)?;
                Ok(size)
            }
            None => Ok(size),
        }
    }

    // Goes on by one byte of this line, where rest is behind it, and the first `skip` bytes belong to a lexeme that began before.
    fn feed(&mut self, line: u32, skip: usize, byte: u8, rest: &[u8]) -> Result<usize, NoMemory>
        requires { self.old.depth + 1 < 2 ^ 64 }
        ensures cut { IfOk result (λ next. self.new.done.items ++ cut (begun_of self.new) (tokens_from (line_after line byte) next rest.now) ≡ self.old.done.items ++ cut (begun_of self.old) (tokens_from line skip (byte ∷ rest.now))) }
        ensures depth { OnOk result (self.new.depth < self.old.depth + 2) }
    {
        if skip > 0 {
            return Ok(skip - 1);
        }
        let size = self.take(line, byte, rest)?;
        Ok(size - 1)
    }
}

fn line_after(line: u32, byte: u8) -> u32
    requires { line_after line byte < 2 ^ 32 }
    ensures { result ≡ line_after line byte }
{
    if byte == b'\n' { line + 1 } else { line }
}

/// The statements of a script, each with the line of its first token; the first line is 1. A
/// statement ends at a `;` outside braces, or, where its first token is RUN, at the `}` that closes
/// its first brace, and this is its last token. A `;` with nothing before it is skipped. Tokens left
/// at the end are a statement without an ending. The script has fewer than 2^32 - 1 line feeds.
pub fn statements(alloc: Global, script: &[u8]) -> Result<Seq<(u32, Seq<Token>)>, NoMemory>
    requires { feeds script.now + 1 < 2 ^ 32 }
    ensures { IfOk result (λ found. found ≡ statements script.now) }
{
    let mut splitter = Splitter {
        alloc,
        done: Vec::new(alloc),
        front: Vec::new(alloc),
        line: 1,
        depth: 0,
    };
    let mut line = 1;
    let mut skip = 0;
    for (index, byte) in script.iter().enumerate() {
        skip = splitter.feed(line, skip, *byte, &script[index + 1..])?;
        line = line_after(line, *byte);
    }
    splitter.close()
}
