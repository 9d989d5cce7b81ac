//! Reads: what is missing and what is null, fragments, and the refusals of reads and of retaining.
use crate::replaying::{replayed, replayed_flat};
use std::test::Fail;

const RECORDS: &str = "query Q{me{friend{name} tags{text}}} fragment P on User{name}";

const BELOW: &str = r#"> {"do":"retain","handle":"h","op":"Q"}
{"n":1,"ok":"retain"}
> {"do":"payload","handle":"h","response":{"data":{"me":{"id":"4","friend":{"id":"5","name":"Bo"},"tags":[{"text":"x"},null]}}}}
{"n":2,"ok":"payload"}
> {"do":"read","handle":"h"}
{"data":{"me":{"friend":{"name":"Bo"},"tags":[{"text":"x"},null]}},"missing":false,"n":3,"ok":"read","seen":["4","5","client:4:tags:0","client:root"]}
> {"do":"update","updates":[{"delete":{"id":"5"}}]}
{"n":4,"ok":"update"}
> {"do":"read","handle":"h"}
{"data":{"me":{"friend":null,"tags":[{"text":"x"},null]}},"missing":false,"n":5,"ok":"read","seen":["4","5","client:4:tags:0","client:root"]}
> {"do":"update","updates":[{"link":{"id":"4","field":"friend","to":"9"}}]}
{"n":6,"ok":"update"}
> {"do":"read","handle":"h"}
{"data":{"me":{"tags":[{"text":"x"},null]}},"missing":true,"n":7,"ok":"read","seen":["4","9","client:4:tags:0","client:root"]}
> {"do":"update","updates":[{"create":{"id":"7","type":"Tag"}},{"link":{"id":"4","field":"friend","to":"7"}}]}
{"n":8,"ok":"update"}
> {"do":"read","handle":"h"}
{"data":{"me":{"tags":[{"text":"x"},null]}},"missing":true,"n":9,"ok":"read","seen":["4","7","client:4:tags:0","client:root"]}
> {"do":"update","updates":[{"link":{"id":"4","field":"friend","to":null}},{"links":{"id":"4","field":"tags","to":["9",null,"4"]}}]}
{"n":10,"ok":"update"}
> {"do":"read","handle":"h"}
{"data":{"me":{"friend":null,"tags":[null,null,null]}},"missing":true,"n":11,"ok":"read","seen":["4","9","client:root"]}
> {"do":"update","updates":[{"links":{"id":"4","field":"tags","to":["5",null]}}]}
{"n":12,"ok":"update"}
> {"do":"read","handle":"h"}
{"data":{"me":{"friend":null,"tags":[null,null]}},"missing":false,"n":13,"ok":"read","seen":["4","5","client:root"]}
"#;

#[test]
fn a_record_below_is_deleted_absent_or_of_another_type(rt: HostRuntime) -> Result<(), Fail> {
    let alloc = rt.alloc();
    assert_eq!(rt; replayed(alloc, RECORDS, BELOW)?.as_str(), BELOW);
    assert_eq!(rt; replayed_flat(alloc, RECORDS, BELOW)?.as_str(), BELOW);
    Ok(())
}

const AT_THE_TOP: &str = r#"> {"do":"retain","handle":"h","op":"Q"}
{"n":1,"ok":"retain"}
> {"do":"read","handle":"h"}
{"data":null,"missing":true,"n":2,"ok":"read","seen":["client:root"]}
> {"do":"read","handle":"h","fragment":"P","id":"5"}
{"data":null,"missing":true,"n":3,"ok":"read","seen":["5"]}
> {"do":"update","updates":[{"create":{"id":"5","type":"Tag"}}]}
{"n":4,"ok":"update"}
> {"do":"read","handle":"h","fragment":"P","id":"5"}
{"data":null,"missing":true,"n":5,"ok":"read","seen":["5"]}
> {"do":"update","updates":[{"delete":{"id":"5"}}]}
{"n":6,"ok":"update"}
> {"do":"read","handle":"h","fragment":"P","id":"5"}
{"data":null,"missing":false,"n":7,"ok":"read","seen":["5"]}
> {"do":"update","updates":[{"create":{"id":"5","type":"User"}}]}
{"n":8,"ok":"update"}
> {"do":"read","handle":"h","fragment":"P","id":"5"}
{"data":{},"missing":true,"n":9,"ok":"read","seen":["5"]}
> {"do":"read","handle":"h","fragment":"P","id":"client:root"}
{"data":null,"missing":true,"n":10,"ok":"read","seen":["client:root"]}
"#;

#[test]
fn a_record_at_the_top_is_deleted_absent_or_of_another_type(rt: HostRuntime) -> Result<(), Fail> {
    let alloc = rt.alloc();
    assert_eq!(rt; replayed(alloc, RECORDS, AT_THE_TOP)?.as_str(), AT_THE_TOP);
    Ok(())
}

const KINDS: &str = "query Q{me{name friend{name} tags{text}}}";

const OTHER_KINDS: &str = r#"> {"do":"retain","handle":"h","op":"Q"}
{"n":1,"ok":"retain"}
> {"do":"payload","handle":"h","response":{"data":{"me":{"id":"4","name":null,"friend":null,"tags":null}}}}
{"n":2,"ok":"payload"}
> {"do":"read","handle":"h"}
{"data":{"me":{"friend":null,"name":null,"tags":null}},"missing":false,"n":3,"ok":"read","seen":["4","client:root"]}
> {"do":"update","updates":[{"set":{"id":"4","field":"friend","value":"4"}}]}
{"n":4,"ok":"update"}
> {"do":"read","handle":"h"}
{"data":{"me":{"name":null,"tags":null}},"missing":true,"n":5,"ok":"read","seen":["4","client:root"]}
> {"do":"update","updates":[{"links":{"id":"4","field":"friend","to":["4"]}},{"link":{"id":"4","field":"tags","to":"4"}},{"link":{"id":"4","field":"name","to":"4"}}]}
{"n":6,"ok":"update"}
> {"do":"read","handle":"h"}
{"data":{"me":{}},"missing":true,"n":7,"ok":"read","seen":["4","client:root"]}
> {"do":"update","updates":[{"set":{"id":"4","field":"friend","value":null}},{"set":{"id":"4","field":"tags","value":[]}},{"set":{"id":"4","field":"name","value":{"b":[],"a":1}}}]}
{"n":8,"ok":"update"}
> {"do":"read","handle":"h"}
{"data":{"me":{"friend":null,"name":{"a":1,"b":[]}}},"missing":true,"n":9,"ok":"read","seen":["4","client:root"]}
"#;

#[test]
fn a_field_that_holds_another_kind_is_missing(rt: HostRuntime) -> Result<(), Fail> {
    let alloc = rt.alloc();
    assert_eq!(rt; replayed(alloc, KINDS, OTHER_KINDS)?.as_str(), OTHER_KINDS);
    Ok(())
}

const SPREADS: &str = "query F{me{...P}} fragment P on User{name}
query I{me{...U@relay(mask:false) ...J}} fragment U on User{name} fragment J on User@inline{age}";

const FRAGMENTS: &str = r#"> {"do":"retain","handle":"h","op":"F"}
{"n":1,"ok":"retain"}
> {"do":"payload","handle":"h","response":{"data":{"me":{"id":"4","name":"Ann"}}}}
{"n":2,"ok":"payload"}
> {"do":"read","handle":"h"}
{"data":{"me":{"__fragments":{"P":{}},"__id":"4","__owner":"h"}},"missing":false,"n":3,"ok":"read","seen":["4","client:root"]}
> {"do":"read","fragment":"P","handle":"h","id":"4"}
{"data":{"name":"Ann"},"missing":false,"n":4,"ok":"read","seen":["4"]}
> {"do":"retain","handle":"i","op":"I"}
{"n":5,"ok":"retain"}
> {"do":"read","handle":"i"}
{"data":{"me":{"__fragments":{"J":{}},"__id":"4","__owner":"i","name":"Ann"}},"missing":true,"n":6,"ok":"read","seen":["4","client:root"]}
> {"do":"payload","handle":"i","response":{"data":{"me":{"id":"4","name":"Ann","age":5}}}}
{"n":7,"ok":"payload"}
> {"do":"read","handle":"i"}
{"data":{"me":{"__fragments":{"J":{"age":5}},"__id":"4","__owner":"i","name":"Ann"}},"missing":false,"n":8,"ok":"read","seen":["4","client:root"]}
"#;

#[test]
fn fragments_are_masked_inlined_or_followed(rt: HostRuntime) -> Result<(), Fail> {
    let alloc = rt.alloc();
    assert_eq!(rt; replayed(alloc, SPREADS, FRAGMENTS)?.as_str(), FRAGMENTS);
    Ok(())
}

const LOCALS: &str = r#"query S($size:Int){...R@arguments(size:3) u:team(size:$size){name}}
query Z{...M@arguments(size:3)}
fragment R on Query@argumentDefinitions(size:{type:"Int",defaultValue:2}){t:team(size:$size){name}}
fragment M on Query@argumentDefinitions(size:{type:"Int!"}){m:team(size:$size){name}}"#;

const ARGUMENTS: &str = r#"> {"do":"retain","handle":"h","op":"S","vars":{"size":9}}
{"n":1,"ok":"retain"}
> {"do":"payload","handle":"h","response":{"data":{"t":[{"id":"1","name":"A"}],"u":[]}}}
{"n":2,"ok":"payload"}
> {"do":"read","handle":"h"}
{"data":{"__fragments":{"R":{"size":3}},"__id":"client:root","__owner":"h","u":[]},"missing":false,"n":3,"ok":"read","seen":["client:root"]}
> {"do":"read","handle":"h","fragment":"R","id":"client:root","args":{"size":3}}
{"data":{"t":[{"name":"A"}]},"missing":false,"n":4,"ok":"read","seen":["1","client:root"]}
> {"do":"read","handle":"h","fragment":"R","id":"client:root","args":{"size":9,"other":1}}
{"data":{"t":[]},"missing":false,"n":5,"ok":"read","seen":["client:root"]}
> {"do":"read","handle":"h","fragment":"R","id":"client:root"}
{"data":{},"missing":true,"n":6,"ok":"read","seen":["client:root"]}
> {"do":"update","updates":[{"links":{"id":"client:root","field":"team","to":[]}},{"links":{"id":"client:root","field":"team","args":{"size":2},"to":["1"]}}]}
{"n":7,"ok":"update"}
> {"do":"read","handle":"h","fragment":"R","id":"client:root"}
{"data":{"t":[{"name":"A"}]},"missing":false,"n":8,"ok":"read","seen":["1","client:root"]}
> {"do":"read","handle":"h","fragment":"R","id":"client:root","args":{"size":null}}
{"data":{"t":[]},"missing":false,"n":9,"ok":"read","seen":["client:root"]}
> {"do":"read","handle":"h","fragment":"R","id":"client:root","args":{"size":"3"}}
{"cause":"Unfit","code":15,"error":"Variables","n":10,"variable":"size"}
> {"do":"read","handle":"h","fragment":"M","id":"client:root"}
{"cause":"Missing","code":15,"error":"Variables","n":11,"variable":"size"}
> {"do":"read","handle":"h","fragment":"M","id":"client:root","args":{"size":null}}
{"cause":"Unfit","code":15,"error":"Variables","n":12,"variable":"size"}
> {"do":"read","handle":"h","fragment":"M","id":"client:root","args":{"size":3}}
{"data":{"m":[{"name":"A"}]},"missing":false,"n":13,"ok":"read","seen":["1","client:root"]}
"#;

#[test]
fn a_fragment_is_read_with_arguments_given_and_defaulted(rt: HostRuntime) -> Result<(), Fail> {
    let alloc = rt.alloc();
    assert_eq!(rt; replayed(alloc, LOCALS, ARGUMENTS)?.as_str(), ARGUMENTS);
    Ok(())
}

const NAMES: &str = "query Q{me{name}} query O($id:ID!){node(id:$id){id}} fragment P on User{name}";

const REFUSED: &str = r#"> {"do":"read","handle":"z"}
{"code":7,"error":"UnknownHandle","n":1,"name":"z"}
> {"do":"retain","handle":"h","op":"P"}
{"code":5,"error":"UnknownOperation","n":2,"name":"P"}
> {"do":"retain","handle":"h","op":"Q"}
{"n":3,"ok":"retain"}
> {"do":"retain","handle":"h","op":"X"}
{"code":8,"error":"HandleTaken","n":4,"name":"h"}
> {"do":"read","handle":"h","fragment":"Q","id":"4"}
{"code":6,"error":"UnknownFragment","n":5,"name":"Q"}
> {"do":"read","handle":"z","fragment":"X","id":"4"}
{"code":7,"error":"UnknownHandle","n":6,"name":"z"}
> {"do":"read","handle":"z","fragment":"P","id":"4","args":{"n":[1]}}
{"code":7,"error":"UnknownHandle","n":7,"name":"z"}
> {"do":"retain","handle":"i","op":"O"}
{"cause":"Missing","code":15,"error":"Variables","n":8,"variable":"id"}
> {"do":"retain","handle":"i","op":"O","vars":{"id":true}}
{"cause":"Unfit","code":15,"error":"Variables","n":9,"variable":"id"}
> {"do":"read","handle":"i"}
{"code":7,"error":"UnknownHandle","n":10,"name":"i"}
> {"do":"retain","handle":"i","op":"O","vars":{"id":4}}
{"n":11,"ok":"retain"}
> {"do":"retain","handle":"i","op":"O"}
{"code":8,"error":"HandleTaken","n":12,"name":"i"}
"#;

#[test]
fn names_are_known_and_handles_are_free(rt: HostRuntime) -> Result<(), Fail> {
    let alloc = rt.alloc();
    assert_eq!(rt; replayed(alloc, NAMES, REFUSED)?.as_str(), REFUSED);
    Ok(())
}

const TWICE: &str =
    r#"query D($s:Boolean=false){me{...R@arguments(b:true)@skip(if:$s) ...R@arguments(b:false)}}
fragment R on User@argumentDefinitions(b:{type:"Boolean",defaultValue:false}){name@include(if:$b)}"#;

const SECOND: &str = r#"> {"do":"retain","handle":"h","op":"D"}
{"n":1,"ok":"retain"}
> {"do":"payload","handle":"h","response":{"data":{"me":{"id":"4","name":"Ann"}}}}
{"n":2,"ok":"payload"}
> {"do":"read","handle":"h"}
{"data":{"me":{"__fragments":{"R":{"b":true}},"__id":"4","__owner":"h"}},"missing":false,"n":3,"ok":"read","seen":["4","client:root"]}
> {"do":"retain","handle":"i","op":"D","vars":{"s":true}}
{"n":4,"ok":"retain"}
> {"do":"read","handle":"i"}
{"data":{"me":{"__fragments":{"R":{"b":false}},"__id":"4","__owner":"i"}},"missing":false,"n":5,"ok":"read","seen":["4","client:root"]}
> {"do":"read","handle":"i","fragment":"R","id":"4","args":{"b":false}}
{"data":{},"missing":false,"n":6,"ok":"read","seen":["4"]}
> {"do":"read","handle":"i","fragment":"R","id":"4","args":{"b":true}}
{"data":{"name":"Ann"},"missing":false,"n":7,"ok":"read","seen":["4"]}
> {"do":"read","handle":"i","fragment":"R","id":"4"}
{"data":{},"missing":false,"n":8,"ok":"read","seen":["4"]}
"#;

#[test]
fn the_first_spread_of_a_name_counts(rt: HostRuntime) -> Result<(), Fail> {
    let alloc = rt.alloc();
    assert_eq!(rt; replayed(alloc, TWICE, SECOND)?.as_str(), SECOND);
    Ok(())
}

const NULLS: &str =
    "query Q($b:Int!,$a:Int!){me{name address{city} tags{text}} team(size:$a){name} x:team(size:$b){age}}
query U{node(id:\"4\"){__typename}}";

const EVERYWHERE: &str = r#"> {"do":"retain","handle":"h","op":"Q"}
{"cause":"Missing","code":15,"error":"Variables","n":1,"variable":"b"}
> {"do":"retain","handle":"h","op":"Q","vars":{"b":"2"}}
{"cause":"Unfit","code":15,"error":"Variables","n":2,"variable":"b"}
> {"do":"retain","handle":"h","op":"Q","vars":{"b":2}}
{"cause":"Missing","code":15,"error":"Variables","n":3,"variable":"a"}
> {"do":"retain","handle":"h","op":"Q","vars":{"b":2,"a":2147483648}}
{"cause":"Unfit","code":15,"error":"Variables","n":4,"variable":"a"}
> {"do":"retain","handle":"h","op":"Q","vars":{"a":null,"b":2}}
{"cause":"Unfit","code":15,"error":"Variables","n":5,"variable":"a"}
> {"do":"retain","handle":"h","op":"Q","vars":{"b":2,"a":1,"c":"more"}}
{"n":6,"ok":"retain"}
> {"do":"payload","handle":"h","response":{"data":{"me":null,"team":null,"x":[null]}}}
{"n":7,"ok":"payload"}
> {"do":"read","handle":"h"}
{"data":{"me":null,"team":null,"x":[null]},"missing":false,"n":8,"ok":"read","seen":["client:root"]}
> {"do":"payload","handle":"h","response":{"data":{"me":{"id":null,"name":null,"address":{"city":null},"tags":[null,{"text":null}]},"team":[{"id":"5","name":null}]}}}
{"n":9,"ok":"payload"}
> {"do":"read","handle":"h"}
{"data":{"me":{"address":{"city":null},"name":null,"tags":[null,{"text":null}]},"team":[{"name":null}],"x":[null]},"missing":false,"n":10,"ok":"read","seen":["5","client:root","client:root:me","client:root:me:address","client:root:me:tags:1"]}
> {"do":"retain","handle":"u","op":"U"}
{"n":11,"ok":"retain"}
> {"do":"payload","handle":"u","response":{"data":{"node":{"__typename":"User","id":"4"}}}}
{"n":12,"ok":"payload"}
> {"do":"read","handle":"u"}
{"data":{"node":{"__typename":"User"}},"missing":false,"n":13,"ok":"read","seen":["4","client:root"]}
> {"do":"payload","handle":"u","response":{"data":{"node":null}}}
{"n":14,"ok":"payload"}
> {"do":"read","handle":"u"}
{"data":{"node":null},"missing":false,"n":15,"ok":"read","seen":["client:root"]}
"#;

#[test]
fn null_reads_as_null_and_is_not_missing(rt: HostRuntime) -> Result<(), Fail> {
    let alloc = rt.alloc();
    assert_eq!(rt; replayed(alloc, NULLS, EVERYWHERE)?.as_str(), EVERYWHERE);
    Ok(())
}
