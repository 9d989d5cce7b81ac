//! How large and how deep an operation or a fragment may be.
use crate::texts::{SCHEMA, expansion, schema};
use std::alloc::Global;
use std::process::Abort;
use std::test::Fail;

/// How many nodes there may be.
const MOST: usize = 100_000;

/// `accepted`, or the cause why a definition is not expanded; `none` where there is none of that name.
fn verdict(alloc: Global, text: &str, name: &str) -> Result<String, Fail> {
    let schema = schema(alloc, SCHEMA)?;
    match expansion(alloc, &schema, text, name)? {
        Some(Ok(_)) => Ok(String::from_str(alloc, "accepted")?),
        Some(Err(fault)) => Ok(format!(in alloc; "{fault:?}")?),
        None => Ok(String::from_str(alloc, "none")?),
    }
}

/// So many times a text.
fn repetition(alloc: Global, text: &str, times: usize) -> Result<String, Fail> {
    let mut all = String::new(alloc);
    for _ in 0..times.min(MOST) {
        all.push_str(text)?;
    }
    Ok(all)
}

/// Selections that come to so many nodes on the root type, and the fragment that they spread.
fn filling(alloc: Global, count: usize) -> Result<(String, String), Fail> {
    let mut fill = repetition(alloc, "...H ", count / 100)?;
    fill.push_str(repetition(alloc, "__typename ", count % 100)?.as_str())?;
    let fields = repetition(alloc, "__typename ", 99)?;
    let hundred = format!(in alloc; "fragment H on Query{{{fields}}}")?;
    Ok((fill, hundred))
}

/// What becomes of a query of so many nodes and these selections, with these directives, beside
/// these fragments.
fn verdict_of_size(alloc: Global, count: usize, row: &str) -> Result<String, Fail> {
    let (directives, rest) = row.split_once(" => ").unwrap_or(("", ""));
    let (selections, fragments) = rest.split_once(" => ").unwrap_or(("", ""));
    let (fill, hundred) = filling(alloc, count)?;
    let text = format!(in alloc;
        "query Q{directives}{{{fill} {selections}}} {hundred} {fragments}"
    )?;
    verdict(alloc, text.as_str(), "Q")
}

/// What becomes of selections that come to so many nodes: with as many others as fill 100,000, and
/// with one more.
fn at_the_limit(alloc: Global, nodes: usize, row: &str) -> Result<String, Fail> {
    let fill = MOST.saturating_sub(nodes);
    let least = verdict_of_size(alloc, fill, row)?;
    let most = verdict_of_size(alloc, fill.saturating_add(1), row)?;
    Ok(format!(in alloc; "{least} {most}")?)
}

/// Fields and inline fragments are nodes, and so are values of arguments and of printed directives:
/// 2 of the query, and then 1, 3, 2, 3 and 5.
#[test]
fn selections_are_counted(rt: HostRuntime) -> Result<(), Fail> {
    let row =
        "@own(n:[7]) => __typename team(size:3){id} __typename@own(n:7)@own ...@own(n:7){__typename} find(by:{a:[[]],b:2}) => ";
    assert_eq!(rt;
        at_the_limit(rt.alloc(), 16, row)?.as_str(),
        "accepted TooManyNodes"
    );
    Ok(())
}

/// A spread is a node, with its conditions, with the values that it gives, and with those that stand
/// in the place of local variables. Its other directives are none. The spreads come to 6, 6, 4 and 7.
#[test]
fn spreads_are_counted(rt: HostRuntime) -> Result<(), Fail> {
    let row =
        " => ...A@arguments(x:[1,2])@own(n:7)@skip(if:false) ...B ...C ...B@arguments(x:[5]) => fragment A on Query@argumentDefinitions(x:{type:\"Any\"})@own(n:7){__typename}
        fragment B on Query@argumentDefinitions(x:{type:\"Any\",defaultValue:[1,2]}){find(by:$x) __typename}
        fragment C on Query@argumentDefinitions(x:{type:\"Any\"}){find(by:[$x])}";
    assert_eq!(rt;
        at_the_limit(rt.alloc(), 23, row)?.as_str(),
        "accepted TooManyNodes"
    );
    Ok(())
}

/// What is added is nodes too: the fields come to 4, 4 and 14.
#[test]
fn additions_are_counted(rt: HostRuntime) -> Result<(), Fail> {
    let row =
        " => team(size:3){name} thing{__typename} me{friends@connection(key:\"K_friends\"){edges{cursor}}} => ";
    assert_eq!(rt;
        at_the_limit(rt.alloc(), 22, row)?.as_str(),
        "accepted TooManyNodes"
    );
    Ok(())
}

/// A query of so many fields.
fn fields(alloc: Global, count: usize) -> Result<String, Fail> {
    let mut text = String::from_str(alloc, "query B{")?;
    for number in 0..count.min(200_000) {
        let one = number.saturating_add(1);
        text.push_str(&format!(in alloc; "a{one}:__typename ")?)?;
    }
    text.push_str("}")?;
    Ok(text)
}

#[test]
fn fields_are_limited(rt: HostRuntime) -> Result<(), Fail> {
    let text = fields(rt.alloc(), MOST)?;
    assert_eq!(rt;
        verdict(rt.alloc(), text.as_str(), "B")?.as_str(),
        "accepted"
    );
    Ok(())
}

#[test]
fn one_field_more_is_refused(rt: HostRuntime) -> Result<(), Fail> {
    let text = fields(rt.alloc(), MOST.saturating_add(1))?;
    assert_eq!(rt;
        verdict(rt.alloc(), text.as_str(), "B")?.as_str(),
        "TooManyNodes"
    );
    Ok(())
}

/// A chain of so many fragments, of which each spreads the next so often, and the last has these
/// selections.
fn chain(alloc: Global, length: usize, times: usize, last: &str) -> Result<String, Fail> {
    let mut text = format!(in alloc; "fragment F{length} on User{{{last}}}")?;
    for number in 0..length.min(1000) {
        let next = number.saturating_add(1);
        let spread = format!(in alloc; "...F{next} ")?;
        let spreads = repetition(alloc, spread.as_str(), times)?;
        text.push_str(&format!(in alloc; " fragment F{number} on User{{{spreads}}}")?)?;
    }
    Ok(text)
}

/// What becomes of a query of the viewer with a chain below it.
fn verdict_of_chain(
    alloc: Global,
    length: usize,
    times: usize,
    last: &str,
) -> Result<String, Fail> {
    let fragments = chain(alloc, length, times, last)?;
    let text = format!(in alloc; "query Q{{me{{...F0}}}} {fragments}")?;
    verdict(alloc, text.as_str(), "Q")
}

/// Fragments that spread the next one twice: with so many of them there are 3 * 2 ^ n + 1 nodes.
#[test]
fn chains_are_limited(rt: HostRuntime) -> Result<(), Fail> {
    assert_eq!(rt;
        verdict_of_chain(rt.alloc(), 30, 2, "name")?.as_str(),
        "TooManyNodes"
    );
    assert_eq!(rt;
        verdict_of_chain(rt.alloc(), 200, 2, "name")?.as_str(),
        "TooManyNodes"
    );
    assert_eq!(rt;
        verdict_of_chain(rt.alloc(), 16, 2, "name")?.as_str(),
        "TooManyNodes"
    );
    assert_eq!(rt;
        verdict_of_chain(rt.alloc(), 15, 2, "name")?.as_str(),
        "accepted"
    );
    Ok(())
}

/// The set of the query, that of the viewer, and one for each fragment, with those inside the last.
#[test]
fn sets_nest_in_limits(rt: HostRuntime) -> Result<(), Fail> {
    assert_eq!(rt;
        verdict_of_chain(rt.alloc(), 57, 1, "name")?.as_str(),
        "accepted"
    );
    assert_eq!(rt;
        verdict_of_chain(rt.alloc(), 58, 1, "name")?.as_str(),
        "TooDeep"
    );
    assert_eq!(rt;
        verdict_of_chain(rt.alloc(), 56, 1, "friend{id}")?.as_str(),
        "accepted"
    );
    assert_eq!(rt;
        verdict_of_chain(rt.alloc(), 57, 1, "friend{id}")?.as_str(),
        "TooDeep"
    );
    let connection = "friends@connection(key:\"K_friends\"){edges{cursor}}";
    assert_eq!(rt;
        verdict_of_chain(rt.alloc(), 54, 1, connection)?.as_str(),
        "accepted"
    );
    assert_eq!(rt;
        verdict_of_chain(rt.alloc(), 55, 1, connection)?.as_str(),
        "TooDeep"
    );
    Ok(())
}

/// A fragment alone, whose own set is the first.
#[test]
fn fragments_have_limits(rt: HostRuntime) -> Result<(), Fail> {
    let accepted = chain(rt.alloc(), 59, 1, "name")?;
    assert_eq!(rt;
        verdict(rt.alloc(), accepted.as_str(), "F0#")?.as_str(),
        "accepted"
    );
    let refused = chain(rt.alloc(), 60, 1, "name")?;
    assert_eq!(rt;
        verdict(rt.alloc(), refused.as_str(), "F0#")?.as_str(),
        "TooDeep"
    );
    assert_eq!(rt;
        verdict(rt.alloc(), refused.as_str(), "F1#")?.as_str(),
        "accepted"
    );
    Ok(())
}

/// What becomes of a query that spreads fragment A with a value of so many lists in one another.
fn verdict_of_gift(alloc: Global, lists: usize, fragments: &str) -> Result<String, Fail> {
    let opened = repetition(alloc, "[", lists)?;
    let closed = repetition(alloc, "]", lists)?;
    let text = format!(in alloc; "query Q{{...A@arguments(x:{opened}1{closed})}} {fragments}")?;
    verdict(alloc, text.as_str(), "Q")
}

/// Values that are put in the place of local variables, and those that spreads give.
#[test]
fn values_nest_in_limits(rt: HostRuntime) -> Result<(), Fail> {
    let put = "fragment A on Query@argumentDefinitions(x:{type:\"Any\"}){find(by:[$x])}";
    assert_eq!(rt; verdict_of_gift(rt.alloc(), 59, put)?.as_str(), "accepted");
    assert_eq!(rt; verdict_of_gift(rt.alloc(), 60, put)?.as_str(), "TooDeep");
    let passed =
        "fragment A on Query@argumentDefinitions(x:{type:\"Any\"}){...B@arguments(y:{a:$x})}
        fragment B on Query@argumentDefinitions(y:{type:\"Any\"}){__typename}";
    assert_eq!(rt;
        verdict_of_gift(rt.alloc(), 59, passed)?.as_str(),
        "accepted"
    );
    assert_eq!(rt;
        verdict_of_gift(rt.alloc(), 60, passed)?.as_str(),
        "TooDeep"
    );
    let printed =
        "fragment A on Query@argumentDefinitions(x:{type:\"Any\"}){...@own(n:[$x]){__typename}}";
    assert_eq!(rt;
        verdict_of_gift(rt.alloc(), 59, printed)?.as_str(),
        "accepted"
    );
    assert_eq!(rt;
        verdict_of_gift(rt.alloc(), 60, printed)?.as_str(),
        "TooDeep"
    );
    let unused = "fragment A on Query@argumentDefinitions(x:{type:\"Any\"}){__typename}";
    assert_eq!(rt;
        verdict_of_gift(rt.alloc(), 60, unused)?.as_str(),
        "accepted"
    );
    Ok(())
}

/// Too many nodes come before too deep sets. A chain that nests too deep has 62 nodes here.
#[test]
fn nodes_come_before_depth(rt: HostRuntime) -> Result<(), Fail> {
    let fragments = chain(rt.alloc(), 58, 1, "name")?;
    let row = format!(in rt.alloc(); " => me{{...F0}} => {fragments}")?;
    assert_eq!(rt;
        verdict_of_size(rt.alloc(), 99_938, row.as_str())?.as_str(),
        "TooDeep"
    );
    assert_eq!(rt;
        verdict_of_size(rt.alloc(), 99_939, row.as_str())?.as_str(),
        "TooManyNodes"
    );
    Ok(())
}
