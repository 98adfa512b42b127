//! Small nodes of each sort, and ways to hold a node: the text before it and after it, and the path of the node.

pub static HOLDERS: &str = r#"
6 rows: name | head | tail | path
a field | {"type":"object","properties":{"x": | }} | /x
a required field | {"type":"object","required":["x"],"properties":{"x": | }} | /x
a list | {"type":"object","properties":{"x":{"type":"array","items": | }}} | /x/[]
a map | {"type":"object","properties":{"x":{"type":"object","additionalProperties": | }}} | /x/{}
an object with one field or two | {"type":"object","properties":{"x":{"type":"object","minProperties":1,"properties":{"z":{"type":"boolean"},"y":
    | }}}} | /x/y
a short list beside a required field with a default
    | {"type":"object","required":["y"],"properties":{"y":{"type":"string","default":"a"},"x":{"type":"array","minItems":1,"maxItems":2,"items": | }}}
    | /x/[]
"#;

/// For nodes of which a list can distinguish two values.
pub static HOLDERS_OF_SCALARS: &str = r#"
5 rows: name | head | tail | path
a set | {"type":"object","properties":{"x":{"type":"array","x-kubernetes-list-type":"set","items": | }}} | /x/[]
a set of at least two | {"type":"object","required":["x"],"properties":{"x":{"type":"array","minItems":2,"x-kubernetes-list-type":"set","items": | }}}
    | /x/[]
a map list
    | {"type":"object","properties":{"x":{"type":"array","x-kubernetes-list-type":"map","x-kubernetes-list-map-keys":["k"],
    "items":{"type":"object","required":["k"],"properties":{"v":{"type":"boolean"},"k": | }}}}} | /x/[]/k
a map list by two keys
    | {"type":"object","properties":{"x":{"type":"array","maxItems":3,"x-kubernetes-list-type":"map","x-kubernetes-list-map-keys":["l","k"],
    "items":{"type":"object","required":["k","l"],"properties":{"l":{"type":"boolean"},"v":{"type":"object"},"k":
    | }}}}} | /x/[]/k
a map list whose key a junctor names
    | {"type":"object","properties":{"x":{"type":"array","x-kubernetes-list-type":"map","x-kubernetes-list-map-keys":["k"],
    "items":{"type":"object","required":["k"],"oneOf":[{"required":["k","v"]},{"required":["w"]}],
    "properties":{"v":{"type":"boolean"},"w":{"type":"object"},"k": | }}}}} | /x/[]/k
"#;

/// Nodes of scalars that are not nullable.
pub static SCALARS: &str = r#"
10 rows: name | schema
integers | {"type":"integer"}
booleans | {"type":"boolean"}
texts | {"type":"string"}
integers or texts | {"x-kubernetes-int-or-string":true}
some integers | {"type":"integer","enum":[3,1,3]}
true | {"type":"boolean","enum":[true]}
integers above a bound | {"type":"integer","minimum":0,"exclusiveMinimum":true}
texts of two letters | {"type":"string","minLength":2}
integers but one | {"type":"integer","not":{"enum":[1]}}
texts of one branch | {"type":"string","oneOf":[{"maxLength":1},{"enum":["a","bb"]}]}
"#;

/// Nodes by the profile of a cluster: of numbers, and of integers whose bounds are cut. None is nullable.
pub static NUMBERS: &str = r#"
7 rows: name | schema
numbers | {"type":"number"}
some numbers, one value twice | {"type":"number","enum":[0.50,2,0.5,1.0]}
numbers within bounds | {"type":"number","minimum":0.5,"maximum":2}
numbers but one | {"type":"number","not":{"enum":[0.5]}}
numbers of one branch | {"type":"number","oneOf":[{"minimum":1},{"maximum":1.5}]}
integers within bounds that are cut | {"type":"integer","minimum":0.5,"maximum":1.5}
integers or texts above a bound that is cut | {"x-kubernetes-int-or-string":true,"minimum":1.5}
"#;

/// Other scalars, and open nodes.
pub static LEAVES: &str = r#"
4 rows: name | schema
booleans or null | {"type":"boolean","nullable":true}
some texts or null | {"type":"string","nullable":true,"enum":["b"]}
any value but null | {"x-kubernetes-preserve-unknown-fields":true}
any value | {"x-kubernetes-preserve-unknown-fields":true,"nullable":true}
"#;

/// Nodes that are neither.
pub static NODES: &str = r#"
18 rows: name | schema
empty objects | {"type":"object"}
empty objects or null | {"type":"object","nullable":true}
objects that keep other fields | {"type":"object","x-kubernetes-preserve-unknown-fields":true,"properties":{"a":{"type":"boolean"}}}
objects with a required field | {"type":"object","required":["b"],"properties":{"a":{"type":"boolean"},"b":{"type":"integer"}}}
objects with a default | {"type":"object","properties":{"a":{"type":"boolean"},"f":{"type":"integer","default":7}}}
objects with a default and a field that may be null
    | {"type":"object","properties":{"f":{"type":"integer","nullable":true,"default":0},"g":{"type":"boolean","nullable":true}}}
objects with at most one of two fields
    | {"type":"object","maxProperties":1,"properties":{"a":{"type":"boolean"},"b":{"type":"object","properties":{"c":{"type":"boolean"}}}}}
objects with two of three fields
    | {"type":"object","minProperties":2,"maxProperties":2,"properties":{"a":{"type":"string"},"b":{"type":"object"},"c":{"type":"boolean"}}}
maps of booleans | {"type":"object","additionalProperties":{"type":"boolean"}}
maps with a member | {"type":"object","minProperties":1,"maxProperties":1,"additionalProperties":{"type":"string"}}
maps to null and integers | {"type":"object","nullable":true,"additionalProperties":{"type":"integer","nullable":true}}
lists of booleans | {"type":"array","items":{"type":"boolean"}}
lists of integers and null | {"type":"array","nullable":true,"maxItems":2,"items":{"type":"integer","nullable":true}}
lists of lists | {"type":"array","minItems":1,"items":{"type":"array","items":{"type":"string"}}}
sets of integers and texts | {"type":"array","x-kubernetes-list-type":"set","items":{"x-kubernetes-int-or-string":true}}
map lists
    | {"type":"array","x-kubernetes-list-type":"map","x-kubernetes-list-map-keys":["k"],
    "items":{"type":"object","required":["k"],"properties":{"k":{"type":"string"},"v":{"type":"integer"}}}}
map lists whose key has a default
    | {"type":"array","x-kubernetes-list-type":"map","x-kubernetes-list-map-keys":["k","l"],
    "items":{"type":"object","required":["l"],"properties":{"k":{"type":"string","default":"a"},"l":{"type":"boolean"}}}}
lists of objects with at least one field
    | {"type":"array","items":{"type":"object","minProperties":1,"properties":{"a":{"type":"boolean"},"b":{"type":"string"}}}}
"#;

/// Objects whose junctors ask which fields are there.
pub static PRESENCE: &str = r#"
13 rows: name | schema
one of two fields | {"type":"object","oneOf":[{"required":["a"]},{"required":["b"]}],"properties":{"a":{"type":"boolean"},"b":{"type":"string"}}}
two fields of which one may be null
    | {"type":"object","nullable":true,"anyOf":[{"required":["a"]},{"required":["b"]}],
    "properties":{"a":{"type":"boolean","nullable":true},"b":{"type":"object"},"c":{"type":"boolean"}}}
fields that are not both there | {"type":"object","not":{"required":["b","a"]},"properties":{"a":{"type":"boolean"},"b":{"type":"integer"}}}
fields that are all there
    | {"type":"object","allOf":[{"required":["a"]},{"required":["c"]}],"properties":{"a":{"type":"boolean"},"b":{"type":"boolean"},"c":{"type":"object"}}}
four named fields
    | {"type":"object","oneOf":[{"required":["d","a"]},{"required":["b"]},{"required":["c"]}],
    "properties":{"a":{"type":"object"},"b":{"type":"object"},"c":{"type":"object"},"d":{"type":"object"},"e":{"type":"object"}}}
nested junctors
    | {"type":"object","allOf":[{"anyOf":[{"required":["a"]},{"not":{"required":["b"]}}]},{"oneOf":[{"required":["c"]},{}]}],
    "properties":{"a":{"type":"object"},"b":{"type":"boolean"},"c":{"type":"object"}}}
a named field with a default
    | {"type":"object","oneOf":[{"required":["a"]},{"required":["b"]}],"properties":{"a":{"type":"boolean","default":true},"b":{"type":"boolean"},
    "c":{"type":"object"}}}
junctors beside bounds
    | {"type":"object","minProperties":1,"maxProperties":2,"not":{"anyOf":[{"required":["a","c"]},{"required":["b"]}]},
    "properties":{"a":{"type":"object"},"b":{"type":"object"},"c":{"type":"boolean"},"d":{"type":"object"}}}
a required field that is named
    | {"type":"object","required":["b"],"anyOf":[{"required":["a"]},{"not":{"required":["b"]}}],
    "properties":{"a":{"type":"boolean"},"b":{"type":"integer"}}}
objects that keep other fields
    | {"type":"object","x-kubernetes-preserve-unknown-fields":true,"oneOf":[{"required":["a"]},{"required":["b"]}],
    "properties":{"a":{"type":"boolean"},"b":{"type":"boolean"}}}
objects below a named field
    | {"type":"object","oneOf":[{"required":["a"]},{"required":["b"]}],"properties":{"a":{"type":"object","not":{"required":["c"]},
    "properties":{"c":{"type":"object"},"d":{"type":"boolean"}}},"b":{"type":"object","default":{},"anyOf":[{"required":["c"]},{"required":[]}],
    "properties":{"c":{"type":"boolean"}}}}}
lists and maps that are named
    | {"type":"object","anyOf":[{"required":["l","m"]},{"not":{"required":["l"]}}],"properties":{"l":{"type":"array","items":{"type":"boolean"}},
    "m":{"type":"object","additionalProperties":{"type":"boolean"}}}}
junctors that nothing meets | {"type":"object","allOf":[{"required":["a"]},{"not":{"required":["a"]}}],"properties":{"a":{"type":"boolean"}}}
"#;
