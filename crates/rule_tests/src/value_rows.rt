//! Values that are given as JSON: which fit a type, and what variables and literals come to. The rules
//! are those of GraphQL (October 2021, sections 3.4 to 3.12 and 6.1.2), with the profile of this
//! project.
use crate::texts::{documents, schema, type_of, value_of};
use plan_ir::{
    Definition, Documents, Env, NoMemory, Pairs, Plain, Schema, VariableDefs, Words, evaluate,
    plain_of, text_of,
};
use schema_values::{VarFault, fits, variables};
use serde_json::Value;
use std::alloc::Global;
use std::process::Abort;
use std::test::Fail;

const SCHEMA: &str = "type Query { me: ID } enum Color { RED GREEN } scalar Any
input Page { first: Int }
input Filter {
  first: Int! last: Int = 3 size: Int! = 2 inner: Filter rows: [[Int!]] any: Any color: Color
  many: [Filter!]
}";

/// The tree of a JSON text.
fn plain(alloc: Global, text: &str) -> Result<Plain, Fail> {
    let value = Value::from_str(alloc, text)?;
    Ok(plain_of(alloc, &value)?)
}

/// The pairs of a JSON text; none where it is no object.
fn pairs(alloc: Global, text: &str) -> Result<Pairs, Fail> {
    match plain(alloc, text)? {
        Plain::Tree(pairs) => Ok(pairs),
        _ => Ok(Pairs::new(alloc)),
    }
}

/// Compares, for each row, whether a value fits a type: `yes` or `no`, the type, the value.
fn compare_fits(rt: &impl Abort, alloc: Global, rows: &str) -> Result<(), Fail> {
    let schema = schema(alloc, SCHEMA)?;
    for row in rows.lines() {
        if let Some((wanted, rest)) = row.split_once(' ') {
            let (of, value) = rest.split_once(' ').unwrap_or((rest, ""));
            let found = fits(&schema, &plain(alloc, value)?, &type_of(alloc, of)?);
            assert_eq!(rt; found, wanted == "yes", "at {row}");
        }
    }
    Ok(())
}

#[test]
fn nulls_and_single_values(rt: HostRuntime) -> Result<(), Fail> {
    let rows = "yes Int null
no Int! null
yes [Int] null
no [Int]! null
yes [Int!] null
yes [Int] [null]
no [Int!] [null]
no [Int!] [1,null]
no [Int!]! null
yes [[Int]!] null
no [[Int]!] [null]
yes [[Int!]] [null]
no [[Int!]] [[null]]
yes [[Int]!] [[null]]
yes Float null
no String! null
no Boolean! null
no ID! null
yes Color null
no Color! null
yes Filter null
no Filter! null
yes Any null
no Any! null
yes Int 0
yes Int! -1
yes Int 2147483647
no Int 2147483648
yes Int -2147483648
no Int -2147483649
no Int \"1\"
no Int true
no Int [1]
no Int {}
yes Float 1
yes Float 9223372036854775807
yes Float -9223372036854775808
no Float \"1\"
no Float true
no Float [1]
no Float {}
yes String \"a\"
yes String! \"\"
no String 1
no String true
no String [\"a\"]
no String {}
yes Boolean true
yes Boolean! false
no Boolean 1
no Boolean \"true\"
no Boolean [true]
no Boolean {}
yes ID \"a\"
yes ID! 1
yes ID 9223372036854775807
no ID true
no ID [\"a\"]
no ID {}
yes Color \"RED\"
yes Color! \"GREEN\"
no Color \"BLUE\"
no Color \"red\"
no Color \"\"
no Color 1
no Color true
no Color [\"RED\"]
no Color {}";
    compare_fits(&rt, rt.alloc(), rows)?;
    Ok(())
}

#[test]
fn lists_and_lists_of_lists(rt: HostRuntime) -> Result<(), Fail> {
    let rows = "yes [Int] []
yes [Int] [1,2]
yes [Int]! 1
yes [Int!] 1
no [Int] 2147483648
no [Int] \"a\"
no [Int] [\"a\"]
no [Int] [1,\"a\"]
no [Int] [[1]]
no [Int] [[]]
no [Int] {}
yes [Color] \"RED\"
yes [Color!] [\"RED\",\"GREEN\"]
no [Color] \"BLUE\"
no [Color] [\"RED\",\"BLUE\"]
yes [[Int]] 1
yes [[Int]] []
yes [[Int]] [[]]
yes [[Int]] [[1],[2,3]]
yes [[Int]] [[1],null]
yes [[Int!]!]! [[1]]
no [[Int]] [1]
no [[Int]] [1,2,3]
no [[Int]] [[1],2]
no [[Int]] [[1],[\"a\"]]
no [[Int]] \"a\"
no [[Int]!] [1]
no [[Boolean]] [true]
no [[String]] [\"a\"]
no [[Color]] [\"RED\"]
no [[Any]] [1]
no [[Any]] [{}]
yes [[Any]] [[1]]
no [[Filter]] [{\"first\":1}]
yes [[Filter]] {\"first\":1}
yes [[[Int]]] 1
yes [[[Int]]] [[[1]]]
no [[[Int]]] [[1]]
no [[[Int]]] [1]";
    compare_fits(&rt, rt.alloc(), rows)?;
    Ok(())
}

#[test]
fn objects_and_other_scalars(rt: HostRuntime) -> Result<(), Fail> {
    let rows = "yes Filter {\"first\":1}
no Filter {}
no Filter {\"first\":null}
no Filter {\"first\":\"1\"}
no Filter {\"last\":1}
yes Filter! {\"first\":1,\"last\":null}
yes Filter {\"first\":1,\"size\":7}
no Filter {\"first\":1,\"size\":null}
no Filter {\"first\":1,\"nobody\":2}
no Filter {\"first\":1,\"nobody\":null}
yes Filter {\"first\":1,\"inner\":null}
yes Filter {\"first\":1,\"inner\":{\"first\":2,\"inner\":{\"first\":3}}}
no Filter {\"first\":1,\"inner\":{}}
no Filter {\"first\":1,\"inner\":{\"first\":2,\"inner\":{\"last\":3}}}
yes Filter {\"first\":1,\"rows\":1}
yes Filter {\"first\":1,\"rows\":[[1],null]}
no Filter {\"first\":1,\"rows\":[1]}
no Filter {\"first\":1,\"rows\":[[null]]}
yes Filter {\"first\":1,\"color\":\"RED\"}
no Filter {\"first\":1,\"color\":\"BLUE\"}
yes Filter {\"first\":1,\"any\":{\"a\":[1,{\"b\":null}]}}
yes Filter {\"first\":1,\"many\":{\"first\":2}}
yes Filter {\"first\":1,\"many\":[{\"first\":2},{\"first\":3}]}
no Filter {\"first\":1,\"many\":[{\"first\":2},null]}
no Filter {\"first\":1,\"many\":[{\"first\":2},{}]}
no Filter 1
no Filter \"a\"
no Filter true
no Filter []
no Filter [{\"first\":1}]
yes [Filter] {\"first\":1}
yes [Filter] [{\"first\":1},null]
no [Filter!] [{\"first\":1},null]
no [Filter] [{\"first\":1},{}]
no [Filter] [[{\"first\":1}]]
yes Any 1
yes Any \"a\"
yes Any! true
yes Any [1,\"a\",[null]]
yes Any {\"a\":{\"b\":[]}}
yes [Any] 1
yes [Any] {\"a\":1}
yes [Any] [[1],{},null]
no [Any!] [1,null]
yes Page {}
yes Page {\"first\":1}
no Page {\"last\":1}";
    compare_fits(&rt, rt.alloc(), rows)?;
    Ok(())
}

/// The variables of the first operation.
fn variables_in(documents: &Documents) -> Option<&VariableDefs> {
    let document = documents.as_slice().first()?;
    match document.tree.definitions.as_slice().first()? {
        Definition::Operation(operation) => Some(&operation.variables),
        Definition::Fragment(_) => None,
    }
}

/// The JSON text of the values of a copy.
fn values_of_copy(alloc: Global, env: &Env) -> Result<Words, NoMemory> {
    let copy = env.copy()?;
    if copy.root.as_str() != "Query" {
        return Words::new(alloc, "another root");
    }
    text_of(alloc, &Plain::Tree(copy.values))
}

/// An environment as the JSON text of its values; else why there is none, and for which variable.
fn environment(alloc: Global, env: Result<Env, VarFault>) -> Result<Words, NoMemory> {
    match env {
        Ok(env) => values_of_copy(alloc, &env),
        Err(VarFault::Missing(name)) => fault_of_name(alloc, "Missing", &name),
        Err(VarFault::Unfit(name)) => fault_of_name(alloc, "Unfit", &name),
        Err(VarFault::NoMemory) => Words::new(alloc, "no memory"),
    }
}

/// A fault with the name of its variable.
fn fault_of_name(alloc: Global, fault: &str, name: &Words) -> Result<Words, NoMemory> {
    let text = format!(in alloc; "{fault} {}", name.as_str())?;
    Words::new(alloc, text.as_str())
}

/// What a query with these variables is given under the values of a JSON text.
fn fit_values(alloc: Global, schema: &Schema, defined: &str, values: &str) -> Result<Words, Fail> {
    let text = format!(in alloc; "query Q({defined}) {{ me }}")?;
    let documents = documents(alloc, text.as_str())?;
    let root = Words::new(alloc, "Query")?;
    match variables_in(&documents) {
        Some(defined) => {
            let env = variables(alloc, schema, &root, defined, &pairs(alloc, values)?);
            Ok(environment(alloc, env)?)
        }
        None => Ok(root),
    }
}

/// A row is the environment, or the fault with its variable; the variables; and what is given.
#[test]
fn variables_have_values(rt: HostRuntime) -> Result<(), Fail> {
    let rows = "{\"a\":1} | $a:Int | {\"a\":1}
{\"a\":null} | $a:Int | {}
{\"a\":null} | $a:Int | {\"a\":null}
{\"a\":null} | $a:Int=3 | {\"a\":null}
{\"a\":3} | $a:Int=3 | {}
{\"a\":4} | $a:Int=3 | {\"a\":4}
{\"a\":3} | $a:Int!=3 | {}
Unfit a | $a:Int!=3 | {\"a\":null}
Missing a | $a:Int! | {}
Missing a | $a:[Int]! | {}
Unfit a | $a:Int! | {\"a\":null}
Unfit a | $a:Int | {\"a\":\"1\"}
{\"a\":1} | $a:Int | {\"a\":1,\"b\":2}
Missing a | $a:Int! | {\"b\":2}
{\"a\":\"RED\"} | $a:Color=RED | {}
{\"a\":\"GREEN\"} | $a:Color=RED | {\"a\":\"GREEN\"}
{\"a\":1} | $a:[Int] | {\"a\":1}
{\"a\":1} | $a:[[Int]]=1 | {}
{\"a\":[[1],null]} | $a:[[Int]] | {\"a\":[[1],null]}
Unfit a | $a:[[Int]] | {\"a\":[1]}
{\"a\":{\"first\":1}} | $a:Filter | {\"a\":{\"first\":1}}
{\"a\":{\"any\":{\"b\":[1,\"RED\"]},\"first\":1}} | $a:Filter={first:1,any:{b:[1,RED]}} | {}
Unfit a | $a:Filter={first:1} | {\"a\":{}}
{\"a\":1,\"b\":2} | $b:Int=2,$a:Int=1 | {}
{\"a\":7,\"b\":null,\"c\":\"x\"} | $c:String=\"x\",$a:Int!,$b:ID | {\"a\":7}
Missing b | $b:Int!,$a:Int! | {}
Unfit b | $b:Int,$a:Int! | {\"b\":\"x\"}
Missing b | $b:Int!,$a:Int | {\"a\":\"x\"}
Unfit c | $a:Int,$c:Int,$b:Int! | {\"c\":true}
Missing c | $a:Int!=1,$c:Color!,$b:Int! | {\"a\":2}";
    let schema = schema(rt.alloc(), SCHEMA)?;
    for row in rows.lines() {
        if let Some((wanted, rest)) = row.split_once(" | ") {
            let (defined, values) = rest.split_once(" | ").unwrap_or((rest, ""));
            let found = fit_values(rt.alloc(), &schema, defined, values)?;
            assert_eq!(rt; found.as_str(), wanted, "at {row}");
        }
    }
    Ok(())
}

/// What a literal is where `x` is 7, `y` is null, and no other variable has a value.
fn value_of_literal(alloc: Global, literal: &str) -> Result<Words, Fail> {
    let env = Env {
        root: Words::new(alloc, "Query")?,
        values: pairs(alloc, "{\"x\":7,\"y\":null}")?,
    };
    let plain = evaluate(alloc, &value_of(alloc, literal)?, &env)?;
    Ok(text_of(alloc, &plain)?)
}

/// A row is a JSON text and the literal that comes to it.
#[test]
fn literals_have_values(rt: HostRuntime) -> Result<(), Fail> {
    let rows = "1 | 1
\"a\" | \"a\"
\"RED\" | RED
true | true
null | null
7 | $x
null | $y
null | $z
[7,\"RED\",[null]] | [$x, RED, [$z]]
{\"a\":7,\"b\":\"RED\"} | {b: RED, a: $x}
{\"a\":2} | {a: 1, a: 2}
{\"a\":null} | {a: 1, a: $z}
{\"a\":[{\"b\":7}]} | {a: [{b: 1, b: $x}]}
[] | []
{} | {}
-9223372036854775808 | -9223372036854775808";
    for row in rows.lines() {
        if let Some((wanted, literal)) = row.split_once(" | ") {
            let found = value_of_literal(rt.alloc(), literal)?;
            assert_eq!(rt; found.as_str(), wanted, "at {row}");
        }
    }
    Ok(())
}
