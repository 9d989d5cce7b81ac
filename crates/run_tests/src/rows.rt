//! Rows of scripts over one document: the document, the script, and the lines that are written, with an
//! empty line between two parts, and a line `=` between two rows.

/// A watch is told of each layer, of what is confirmed below it, and of its end.
pub const WATCH: &str = r#"query G{me{age}}

{"do":"retain","handle":"h","op":"G"}
{"do":"payload","handle":"h","response":{"data":{"me":{"id":"4","age":5}}}}
{"do":"watch","watch":"w","handle":"h"}
{"do":"begin","layer":"a","updates":[{"add":{"id":"4","field":"age","by":1}}]}
{"do":"payload","handle":"h","response":{"data":{"me":{"id":"4","age":7}}}}
{"do":"revert","layer":"a"}

{"n":1,"ok":"retain"}
{"n":2,"ok":"payload"}
{"data":{"me":{"age":5}},"missing":false,"n":3,"ok":"watch","seen":["4","client:root"]}
{"n":4,"ok":"begin"}
{"data":{"me":{"age":6}},"missing":false,"n":4,"notice":"w","seen":["4","client:root"]}
{"n":5,"ok":"payload"}
{"data":{"me":{"age":8}},"missing":false,"n":5,"notice":"w","seen":["4","client:root"]}
{"n":6,"ok":"revert"}
{"data":{"me":{"age":7}},"missing":false,"n":6,"notice":"w","seen":["4","client:root"]}
"#;

/// Scripts without a line that is refused.
pub const DONE: &str = r#"query Q{me{name}}



=
query T($n:Int){a:team(size:2){name} b:team(size:$n){name} c:team{name}}

{"do":"retain","handle":"h","op":"T","vars":{"n":null}}
{"do":"payload","handle":"h","response":{"data":{"a":[{"id":"1","name":"A"}],"b":[],"c":[]}}}
{"do":"read","handle":"h"}

{"n":1,"ok":"retain"}
{"n":2,"ok":"payload"}
{"data":{"a":[{"name":"A"}],"b":[],"c":[]},"missing":false,"n":3,"ok":"read","seen":["1","client:root"]}
=
query A{me{address{city} tags{text}}}

{"do":"retain","handle":"h","op":"A"}
{"do":"payload","handle":"h","response":{"data":{"me":{"id":"4","address":{"city":"Rom"},"tags":[{"text":"x"},null]}}}}
{"do":"read","handle":"h"}

{"n":1,"ok":"retain"}
{"n":2,"ok":"payload"}
{"data":{"me":{"address":{"city":"Rom"},"tags":[{"text":"x"},null]}},"missing":false,"n":3,"ok":"read","seen":["4","client:4:address","client:4:tags:0","client:root"]}
=
query F{me{...P}} fragment P on User{name}

{"do":"retain","handle":"h","op":"F"}
{"do":"payload","handle":"h","response":{"data":{"me":{"id":"4","name":"Ann"}}}}
{"do":"read","handle":"h"}
{"do":"read","fragment":"P","handle":"h","id":"4"}

{"n":1,"ok":"retain"}
{"n":2,"ok":"payload"}
{"data":{"me":{"__fragments":{"P":{}},"__id":"4","__owner":"h"}},"missing":false,"n":3,"ok":"read","seen":["4","client:root"]}
{"data":{"name":"Ann"},"missing":false,"n":4,"ok":"read","seen":["4"]}
=
query G{me{age}}

{"do":"retain","handle":"h","op":"G"}
{"do":"payload","handle":"h","response":{"data":{"me":{"id":"4","age":5}}}}
{"do":"begin","layer":"a","updates":[{"add":{"id":"4","field":"age","by":1}}]}
{"do":"read","handle":"h"}
{"do":"payload","handle":"h","response":{"data":{"me":{"id":"4","age":7}}}}
{"do":"read","handle":"h"}
{"do":"revert","layer":"a"}
{"do":"read","handle":"h"}

{"n":1,"ok":"retain"}
{"n":2,"ok":"payload"}
{"n":3,"ok":"begin"}
{"data":{"me":{"age":6}},"missing":false,"n":4,"ok":"read","seen":["4","client:root"]}
{"n":5,"ok":"payload"}
{"data":{"me":{"age":8}},"missing":false,"n":6,"ok":"read","seen":["4","client:root"]}
{"n":7,"ok":"revert"}
{"data":{"me":{"age":7}},"missing":false,"n":8,"ok":"read","seen":["4","client:root"]}
=
query K($after:String){me{friends(first:2,after:$after)@connection(key:"K_friends"){edges{node{name}}}}}

{"do":"retain","handle":"h","op":"K"}
{"do":"payload","handle":"h","response":{"data":{"me":{"id":"4","friends":{"edges":[{"cursor":"c1","node":{"id":"5","name":"Al"}},{"cursor":"c2","node":{"id":"6","name":"Bo"}}],"pageInfo":{"endCursor":"c2"}}}}}}
{"do":"update","updates":[{"create":{"id":"7","type":"User"}},{"set":{"field":"name","id":"7","value":"Cy"}},{"prepend_node":{"edge_type":"UserEdge","id":"4","key":"K_friends","node":"7"}}]}
{"do":"read","handle":"h"}
{"do":"update","updates":[{"delete_edge":{"id":"4","key":"K_friends","node":"5"}}]}
{"do":"read","handle":"h"}

{"n":1,"ok":"retain"}
{"n":2,"ok":"payload"}
{"n":3,"ok":"update"}
{"data":{"me":{"friends":{"edges":[{"node":{"name":"Cy"}},{"node":{"name":"Al"}},{"node":{"name":"Bo"}}]}}},"missing":false,"n":4,"ok":"read","seen":["4","5","6","7","client:4:__K_friends_connection","client:4:__K_friends_connection:edges:0","client:4:__K_friends_connection:edges:1","client:4:__K_friends_connection:edges:2","client:root"]}
{"n":5,"ok":"update"}
{"data":{"me":{"friends":{"edges":[{"node":{"name":"Cy"}},{"node":{"name":"Bo"}}]}}},"missing":false,"n":6,"ok":"read","seen":["4","6","7","client:4:__K_friends_connection","client:4:__K_friends_connection:edges:1","client:4:__K_friends_connection:edges:2","client:root"]}
=
query K($after:String){me{friends(first:2,after:$after)@connection(key:"K_friends"){edges{node{name}}}}}

{"do":"retain","handle":"h","op":"K"}
{"do":"payload","handle":"h","response":{"data":{"me":{"id":"4","friends":{"edges":[{"cursor":"c1","node":{"id":"5","name":"Al"}},{"cursor":"c2","node":{"id":"6","name":"Bo"}}],"pageInfo":{"endCursor":"c2"}}}}}}
{"do":"retain","handle":"i","op":"K","vars":{"after":"c2"}}
{"do":"payload","handle":"i","response":{"data":{"me":{"id":"4","friends":{"edges":[{"cursor":"c3","node":{"id":"6","name":"Bo"}},{"cursor":"c4","node":{"id":"7","name":"Cy"}}],"pageInfo":{}}}}}}
{"do":"read","handle":"h"}
{"do":"retain","handle":"j","op":"K","vars":{"after":"c9"}}
{"do":"payload","handle":"j","response":{"data":{"me":{"id":"4","friends":{"edges":[{"cursor":"c10","node":{"id":"8","name":"Di"}}],"pageInfo":{}}}}}}
{"do":"read","handle":"h"}

{"n":1,"ok":"retain"}
{"n":2,"ok":"payload"}
{"n":3,"ok":"retain"}
{"n":4,"ok":"payload"}
{"data":{"me":{"friends":{"edges":[{"node":{"name":"Al"}},{"node":{"name":"Bo"}},{"node":{"name":"Cy"}}]}}},"missing":false,"n":5,"ok":"read","seen":["4","5","6","7","client:4:__K_friends_connection","client:4:__K_friends_connection:edges:0","client:4:__K_friends_connection:edges:1","client:4:__K_friends_connection:edges:2","client:root"]}
{"n":6,"ok":"retain"}
{"n":7,"ok":"payload"}
{"data":{"me":{"friends":{"edges":[{"node":{"name":"Al"}},{"node":{"name":"Bo"}},{"node":{"name":"Cy"}}]}}},"missing":false,"n":8,"ok":"read","seen":["4","5","6","7","client:4:__K_friends_connection","client:4:__K_friends_connection:edges:0","client:4:__K_friends_connection:edges:1","client:4:__K_friends_connection:edges:2","client:root"]}
=
query M{me{name friend{name}}} query N{me{friend{id}}}

{"do":"retain","handle":"h","op":"M"}
{"do":"retain","handle":"k","op":"N"}
{"do":"payload","handle":"h","response":{"data":{"me":{"id":"4","name":"Ann","friend":{"id":"9","name":"Zoe"}}}}}
{"do":"payload","handle":"h","response":{"data":{"me":{"id":"4","name":"Ann","friend":{"id":"8","name":"Al"}}}}}
{"do":"collect"}
{"do":"payload","handle":"k","response":{"data":{"me":{"id":"4","friend":{"id":"9"}}}}}
{"do":"read","handle":"h"}

{"n":1,"ok":"retain"}
{"n":2,"ok":"retain"}
{"n":3,"ok":"payload"}
{"n":4,"ok":"payload"}
{"dropped":1,"n":5,"ok":"collect","waiting":false}
{"n":6,"ok":"payload"}
{"data":{"me":{"friend":{},"name":"Ann"}},"missing":true,"n":7,"ok":"read","seen":["4","9","client:root"]}
=
query G{me{age}}

{"do":"retain","handle":"h","op":"G"}
{"do":"payload","handle":"h","response":{"data":{"me":{"id":"4","age":5}}}}
{"do":"begin","layer":"a","updates":[{"add":{"id":"4","field":"age","by":1}}]}
{"do":"collect"}

{"n":1,"ok":"retain"}
{"n":2,"ok":"payload"}
{"n":3,"ok":"begin"}
{"dropped":0,"n":4,"ok":"collect","waiting":false}
=
query G{me{age}}

{"do":"retain","handle":"h","op":"G"}
{"do":"payload","handle":"h","response":{"data":{"me":{"id":"4","age":5}}}}
{"do":"watch","watch":"w","handle":"h"}
{"do":"unwatch","watch":"w"}
{"do":"payload","handle":"h","response":{"data":{"me":{"id":"4","age":7}}}}

{"n":1,"ok":"retain"}
{"n":2,"ok":"payload"}
{"data":{"me":{"age":5}},"missing":false,"n":3,"ok":"watch","seen":["4","client:root"]}
{"n":4,"ok":"unwatch"}
{"n":5,"ok":"payload"}
"#;

/// Scripts with a line that is refused.
pub const REFUSED: &str = r#"query C{me{name friend{name}}}

{"do":"retain","handle":"h","op":"C"}
{"do":"payload","handle":"h","response":{"data":{"me":{"id":"4","name":"Ann","friend":{"id":"4","name":"Eve"}}}}}
{"do":"read","handle":"h"}

{"n":1,"ok":"retain"}
{"cause":"Conflict","code":16,"error":"Payload","first":"Eve","id":"4","key":"name","n":2,"path":["me","name"],"second":"Ann"}
{"data":null,"missing":true,"n":3,"ok":"read","seen":["client:root"]}
=
query N{me{age}}

{"do":"retain","handle":"h","op":"N"}
{"do":"payload","handle":"h","response":{"data":{"me":{"id":"4","age":1.5}}}}

{"n":1,"ok":"retain"}
{"cause":"NotWhole","code":16,"error":"Payload","n":2,"path":["me","age"]}
=
query Q{me{name}}

{"do":"retain","handle":"h","op":"Q"}
{"do":"payload","handle":"h","response":{"data":{"me":[]}}}

{"n":1,"ok":"retain"}
{"cause":"Shape","code":16,"error":"Payload","n":2,"path":["me"]}
=
query Q{me{name}}

x
{"do":"read","handle":"z"}
{"do":"collect"}

{"code":1,"error":"NotJson","n":1}
{"code":7,"error":"UnknownHandle","n":2,"name":"z"}
{"dropped":0,"n":3,"ok":"collect","waiting":false}
=
query Q{me{name}}

{"do":"retain","handle":"h","op":"X"}

{"code":5,"error":"UnknownOperation","n":1,"name":"X"}
=
query Q{me{name}}

{"do":"finish","layer":"z"}
{"do":"read"}

{"code":10,"error":"UnknownLayer","n":1,"name":"z"}
{"code":2,"error":"EventShape","n":2}
=
query O($id:ID!){node(id:$id){id}}

{"do":"retain","handle":"h1","op":"O","vars":{"id":"u1"}}
{"do":"retain","handle":"h2","op":"O","vars":{"id":"u2"}}
{"do":"retain","handle":"h3","op":"O","vars":{"id":"u3"}}
{"do":"retain","handle":"h4","op":"O","vars":{"id":"u4"}}
{"do":"retain","handle":"h5","op":"O","vars":{"id":"u5"}}
{"do":"retain","handle":"h6","op":"O","vars":{"id":"u6"}}
{"do":"retain","handle":"h7","op":"O","vars":{"id":"u7"}}
{"do":"retain","handle":"h8","op":"O","vars":{"id":"u8"}}
{"do":"retain","handle":"h9","op":"O","vars":{"id":"u9"}}
{"do":"retain","handle":"h10","op":"O","vars":{"id":"u10"}}
{"do":"retain","handle":"h11","op":"O","vars":{"id":"u11"}}
{"do":"payload","handle":"h1","response":{"data":{"node":{"__typename":"User","id":"u1"}}}}
{"do":"payload","handle":"h2","response":{"data":{"node":{"__typename":"User","id":"u2"}}}}
{"do":"payload","handle":"h3","response":{"data":{"node":{"__typename":"User","id":"u3"}}}}
{"do":"payload","handle":"h4","response":{"data":{"node":{"__typename":"User","id":"u4"}}}}
{"do":"payload","handle":"h5","response":{"data":{"node":{"__typename":"User","id":"u5"}}}}
{"do":"payload","handle":"h6","response":{"data":{"node":{"__typename":"User","id":"u6"}}}}
{"do":"payload","handle":"h7","response":{"data":{"node":{"__typename":"User","id":"u7"}}}}
{"do":"payload","handle":"h8","response":{"data":{"node":{"__typename":"User","id":"u8"}}}}
{"do":"payload","handle":"h9","response":{"data":{"node":{"__typename":"User","id":"u9"}}}}
{"do":"payload","handle":"h10","response":{"data":{"node":{"__typename":"User","id":"u10"}}}}
{"do":"payload","handle":"h11","response":{"data":{"node":{"__typename":"User","id":"u11"}}}}
{"do":"release","handle":"h1"}
{"do":"release","handle":"h2"}
{"do":"release","handle":"h3"}
{"do":"release","handle":"h4"}
{"do":"release","handle":"h5"}
{"do":"release","handle":"h6"}
{"do":"release","handle":"h7"}
{"do":"release","handle":"h8"}
{"do":"release","handle":"h9"}
{"do":"release","handle":"h10"}
{"do":"release","handle":"h11"}
{"do":"collect"}
{"do":"retain","handle":"x","op":"O","vars":{"id":"u1"}}
{"do":"read","handle":"x"}
{"do":"retain","handle":"y","op":"O","vars":{"id":"u2"}}
{"do":"read","handle":"y"}
{"do":"payload","handle":"y","response":{"data":{"node":{"id":"u2"}}}}

{"n":1,"ok":"retain"}
{"n":2,"ok":"retain"}
{"n":3,"ok":"retain"}
{"n":4,"ok":"retain"}
{"n":5,"ok":"retain"}
{"n":6,"ok":"retain"}
{"n":7,"ok":"retain"}
{"n":8,"ok":"retain"}
{"n":9,"ok":"retain"}
{"n":10,"ok":"retain"}
{"n":11,"ok":"retain"}
{"n":12,"ok":"payload"}
{"n":13,"ok":"payload"}
{"n":14,"ok":"payload"}
{"n":15,"ok":"payload"}
{"n":16,"ok":"payload"}
{"n":17,"ok":"payload"}
{"n":18,"ok":"payload"}
{"n":19,"ok":"payload"}
{"n":20,"ok":"payload"}
{"n":21,"ok":"payload"}
{"n":22,"ok":"payload"}
{"n":23,"ok":"release"}
{"n":24,"ok":"release"}
{"n":25,"ok":"release"}
{"n":26,"ok":"release"}
{"n":27,"ok":"release"}
{"n":28,"ok":"release"}
{"n":29,"ok":"release"}
{"n":30,"ok":"release"}
{"n":31,"ok":"release"}
{"n":32,"ok":"release"}
{"n":33,"ok":"release"}
{"dropped":1,"n":34,"ok":"collect","waiting":false}
{"n":35,"ok":"retain"}
{"data":{},"missing":true,"n":36,"ok":"read","seen":["client:root","u1"]}
{"n":37,"ok":"retain"}
{"data":{"node":{"id":"u2"}},"missing":false,"n":38,"ok":"read","seen":["client:root","u2"]}
{"cause":"Typename","code":16,"error":"Payload","n":39,"path":["node","__typename"]}
=
query G{me{age}}

{"do":"retain","handle":"h","op":"G"}
{"do":"payload","handle":"h","response":{"data":{"me":{"id":"4","age":5}}}}
{"do":"watch","watch":"w","handle":"h"}
{"do":"begin","layer":"a","updates":[{"add":{"id":"4","field":"age","by":1}}]}
{"do":"release","handle":"h"}
{"do":"collect"}

{"n":1,"ok":"retain"}
{"n":2,"ok":"payload"}
{"data":{"me":{"age":5}},"missing":false,"n":3,"ok":"watch","seen":["4","client:root"]}
{"n":4,"ok":"begin"}
{"data":{"me":{"age":6}},"missing":false,"n":4,"notice":"w","seen":["4","client:root"]}
{"code":9,"error":"HandleInUse","n":5,"name":"h"}
{"dropped":0,"n":6,"ok":"collect","waiting":false}
"#;
