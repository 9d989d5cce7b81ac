//! Runs of the top call over objects in memory.
ghost use Rattle.std.specs.Prelude.{None};

use relay_io::{Failed, MemSink, MemSource, MemVault, Source};
use relay_top::{Counts, Status, Words, relay_top};
use std::alloc::Global;
use std::test::Fail;

pub(crate) const SCHEMA: &str =
    "type Query{me:User} type User{id:ID! name:String age:Int friend:User}";

pub(crate) const CONNECTIONS: &str = "interface Node{id:ID!}
    type Query{me:User node(id:ID!):Node team(size:Int):[User]}
    type Mutation{rename(name:String!):User}
    type User implements Node{id:ID! name:String age:Int friend:User address:Address tags:[Tag]
      friends(first:Int,after:String,last:Int,before:String):UserConnection}
    type Address{city:String} type Tag{text:String}
    type UserConnection{edges:[UserEdge] pageInfo:PageInfo!} type UserEdge{cursor:String node:User}
    type PageInfo{hasNextPage:Boolean! hasPreviousPage:Boolean! startCursor:String endCursor:String}";

pub(crate) const QUERY: &str = "query Q{me{name}}";

/// Lines of 37, 80 and 26 bytes, each with its LF.
pub(crate) const SCRIPT: &str = "{\"do\":\"retain\",\"handle\":\"h\",\"op\":\"Q\"}\n\
    {\"do\":\"payload\",\"handle\":\"h\",\"response\":{\"data\":{\"me\":{\"id\":\"4\",\"name\":\"Ann\"}}}}\n\
    {\"do\":\"read\",\"handle\":\"h\"}\n";

pub(crate) const ANSWERS: &str = "{\"n\":1,\"ok\":\"retain\"}\n{\"n\":2,\"ok\":\"payload\"}\n\
    {\"data\":{\"me\":{\"name\":\"Ann\"}},\"missing\":false,\"n\":3,\"ok\":\"read\",\"seen\":[\"4\",\"client:root\"]}\n";

pub(crate) const ONE: [&str; 4] = ["run", "10", "s.graphql", "d.graphql"];

/// The number of one call.
pub(crate) fn one(alloc: Global, call: u64) -> Result<Vec<u64>, Fail> {
    Ok(vec![in alloc; call]?)
}

/// A schema and two documents.
pub(crate) fn files_of(
    alloc: Global,
    schema: &str,
    first: &[u8],
    second: &str,
) -> Result<Vec<(Words, Vec<u8>)>, Fail> {
    let mut files = Vec::new(alloc);
    files.push((
        Words::new(alloc, "s.graphql")?,
        schema.as_bytes().to_vec(alloc)?,
    ))?;
    files.push((Words::new(alloc, "d.graphql")?, first.to_vec(alloc)?))?;
    files.push((
        Words::new(alloc, "e.graphql")?,
        second.as_bytes().to_vec(alloc)?,
    ))?;
    Ok(files)
}

/// A vault of a schema and two documents.
pub(crate) fn vault_of(
    alloc: Global,
    schema: &str,
    first: &[u8],
    second: &str,
) -> Result<MemVault, Fail> {
    let files = files_of(alloc, schema, first, second)?;
    Ok(MemVault::new(files, Vec::new(alloc)))
}

/// The most bytes that a stream moves a call, and which call of it fails: none where that is 0.
#[derive(Clone, Copy, Debug)]
pub(crate) struct Moves {
    pub piece: usize,
    pub failing: u64,
}

/// Moves of large pieces, of which none fails.
pub(crate) const WHOLE: Moves = Moves {
    piece: 65_536,
    failing: 0,
};

/// What a script is answered over the files of a vault, and what the sink then holds.
pub(crate) fn run_between(
    alloc: Global,
    mut vault: MemVault,
    script: &[u8],
    reads: Moves,
    puts: Moves,
) -> Result<(Status, Vec<u8>), Fail> {
    let bytes = script.to_vec(alloc)?;
    let mut source = MemSource::new(bytes, reads.piece.max(1), one(alloc, reads.failing)?);
    let mut out = MemSink::new(alloc, 4096, puts.piece.max(1), one(alloc, puts.failing)?)?;
    let mut steps = Counts::new();
    let status = relay_top(alloc, &ONE, &mut vault, &mut source, &mut out, &mut steps);
    Ok((status, out.contents().to_vec(alloc)?))
}

/// What a script is answered over a document that may use connections.
pub(crate) fn answers_over(
    alloc: Global,
    document: &str,
    script: &[u8],
    reads: Moves,
    puts: Moves,
) -> Result<(Status, Vec<u8>), Fail> {
    let vault = vault_of(alloc, CONNECTIONS, document.as_bytes(), "")?;
    run_between(alloc, vault, script, reads, puts)
}

/// Gives a text, then a line so often, and then another text, at most one of them a call. It tells no
/// content, and never fails.
#[derive(Drop)]
pub(crate) struct Repeating<'a> {
    pub text: &'a [u8],
    pub line: &'a [u8],
    pub times: u64,
    pub end: &'a [u8],
    pub calls: u64,
}

impl<'a> Source for Repeating<'a> {
    ghost left = { λ _. None };

    ghost faults = { λ _. 0 };

    ghost calls = { λ s. s.calls };

    fn read(&mut self, into: &mut [u8]) -> Result<usize, Failed> {
        self.calls = self.calls.saturating_add(1);
        if self.text.is_empty() {
            if self.times > 0 {
                self.text = self.line;
                self.times -= 1;
            } else {
                self.text = self.end;
                self.end = b"";
            }
        }
        let count = self.text.len().min(into.len());
        into[..count].copy_from_slice(&self.text[..count]);
        self.text = &self.text[count..];
        Ok(count)
    }
}

/// The document, the script and the lines of a row.
pub(crate) fn parts_of(row: &str) -> (&str, &str, &str) {
    let (document, rest) = row.split_once("\n\n").unwrap_or(("", ""));
    let (script, lines) = rest.split_once("\n\n").unwrap_or(("", ""));
    (document, script, lines)
}
