//! The router that a made load runs: IPv4 routes by longest prefix, each with a counter.
ghost use Rattle.std.specs.Prelude.{◌≡◌};
ghost use Rattle.gen_tape.specs.Router.{router_info, router_json};

/// The canonical bytes of its P4Info (p4.config.v1): the table `ipv4_lpm` (33554434) with an LPM field of 32 bits and room for 8,192
/// entries, its direct counter, and its actions `route` (16777219), with a port of 9 bits and a mac of 48, and `drop`.
const ROUTER_INFO: [u8; 149] = [
    0x12, 0x3b, 0x0a, 0x0f, 0x08, 0x82, 0x80, 0x80, 0x10, 0x12, 0x08, 0x69, 0x70, 0x76, 0x34, 0x5f,
    0x6c, 0x70, 0x6d, 0x12, 0x10, 0x08, 0x01, 0x12, 0x08, 0x69, 0x70, 0x76, 0x34, 0x2e, 0x64, 0x73,
    0x74, 0x20, 0x20, 0x28, 0x03, 0x1a, 0x05, 0x08, 0x83, 0x80, 0x80, 0x08, 0x1a, 0x05, 0x08, 0x82,
    0x80, 0x80, 0x08, 0x3a, 0x05, 0x81, 0x80, 0x80, 0x98, 0x01, 0x40, 0x80, 0x40, 0x1a, 0x25, 0x0a,
    0x0c, 0x08, 0x83, 0x80, 0x80, 0x08, 0x12, 0x05, 0x72, 0x6f, 0x75, 0x74, 0x65, 0x12, 0x0a, 0x08,
    0x01, 0x12, 0x04, 0x70, 0x6f, 0x72, 0x74, 0x20, 0x09, 0x12, 0x09, 0x08, 0x02, 0x12, 0x03, 0x6d,
    0x61, 0x63, 0x20, 0x30, 0x1a, 0x0d, 0x0a, 0x0b, 0x08, 0x82, 0x80, 0x80, 0x08, 0x12, 0x04, 0x64,
    0x72, 0x6f, 0x70, 0x32, 0x20, 0x0a, 0x15, 0x08, 0x81, 0x80, 0x80, 0x98, 0x01, 0x12, 0x0d, 0x69,
    0x70, 0x76, 0x34, 0x5f, 0x6c, 0x70, 0x6d, 0x5f, 0x68, 0x69, 0x74, 0x73, 0x12, 0x02, 0x08, 0x03,
    0x18, 0x82, 0x80, 0x80, 0x10,
];

/// Its device configuration, in BMv2's JSON form.
const ROUTER_JSON: [u8; 4125] = *br#"{"header_types":[{"name":"standard_metadata_t","id":0,
"fields":[["ingress_port",9],["egress_spec",9],["egress_port",9],["packet_length",32],
["parser_error",32],["checksum_error",1]]},
{"name":"eth_t","id":1,"fields":[["dst",48,false],["src",48,false],["type",16,false]]},
{"name":"ipv4_t","id":2,
"fields":[["version",4,false],["ihl",4,false],["tos",8,false],["len",16,false],["id",16,false],
["flags",3,false],["frag",13,false],["ttl",8,false],["proto",8,false],["csum",16,false],
["src",32,false],["dst",32,false]]}],
"headers":[{"name":"standard_metadata","id":0,"header_type":"standard_metadata_t","metadata":true},
{"name":"eth","id":1,"header_type":"eth_t","metadata":false},
{"name":"ipv4","id":2,"header_type":"ipv4_t","metadata":false}],
"parsers":[{"name":"parser","id":0,"init_state":"start",
"parse_states":[{"name":"start","id":0,
"parser_ops":[{"op":"extract","parameters":[{"type":"regular","value":"eth"}]}],
"transition_key":[{"type":"field","value":["eth","type"]}],
"transitions":[{"type":"hexstr","value":"0x0800","mask":null,"next_state":"ipv4"},
{"type":"default","value":null,"mask":null,"next_state":null}]},
{"name":"ipv4","id":1,
"parser_ops":[{"op":"extract","parameters":[{"type":"regular","value":"ipv4"}]}],
"transition_key":[],"transitions":[{"type":"default","value":null,"mask":null,"next_state":null}]}]}],
"deparsers":[{"name":"deparser","id":0,"order":["eth","ipv4"],"primitives":[]}],
"actions":[{"name":"route","id":0,
"runtime_data":[{"name":"port","bitwidth":9},{"name":"mac","bitwidth":48}],
"primitives":[{"op":"assign",
"parameters":[{"type":"field","value":["standard_metadata","egress_spec"]},
{"type":"runtime_data","value":0}]},
{"op":"assign",
"parameters":[{"type":"field","value":["eth","src"]},{"type":"field","value":["eth","dst"]}]},
{"op":"assign",
"parameters":[{"type":"field","value":["eth","dst"]},{"type":"runtime_data","value":1}]},
{"op":"assign",
"parameters":[{"type":"field","value":["ipv4","ttl"]},
{"type":"expression",
"value":{"type":"expression",
"value":{"op":"&",
"left":{"type":"expression",
"value":{"op":"+","left":{"type":"field","value":["ipv4","ttl"]},
"right":{"type":"hexstr","value":"0xff"}}},"right":{"type":"hexstr","value":"0xff"}}}}]}]},
{"name":"drop","id":1,"runtime_data":[],
"primitives":[{"op":"mark_to_drop","parameters":[{"type":"header","value":"standard_metadata"}]}]}],
"pipelines":[{"name":"ingress","id":0,"init_table":"is_ipv4",
"tables":[{"name":"ipv4_lpm","id":0,
"key":[{"match_type":"lpm","name":"ipv4.dst","target":["ipv4","dst"],"mask":null}],"type":"simple",
"max_size":8192,"with_counters":true,"support_timeout":false,"action_ids":[0,1],
"actions":["route","drop"],"base_default_next":null,"next_tables":{"route":null,"drop":null},
"default_entry":{"action_id":1,"action_const":false,"action_data":[],"action_entry_const":false}}],
"action_profiles":[],
"conditionals":[{"name":"is_ipv4","id":0,
"expression":{"type":"expression",
"value":{"op":"d2b","left":null,"right":{"type":"field","value":["ipv4","$valid$"]}}},
"true_next":"ipv4_lpm","false_next":null}]},
{"name":"egress","id":1,"init_table":null,"tables":[],"action_profiles":[],"conditionals":[]}],
"errors":[["NoError",0],["PacketTooShort",1],["NoMatch",2],["StackOutOfBounds",3]],
"counter_arrays":[{"name":"ipv4_lpm_hits","id":0,"is_direct":true,"binding":"ipv4_lpm"}],
"calculations":[{"name":"ipv4_sum","id":0,"algo":"csum16",
"input":[{"type":"field","value":["ipv4","version"]},{"type":"field","value":["ipv4","ihl"]},
{"type":"field","value":["ipv4","tos"]},{"type":"field","value":["ipv4","len"]},
{"type":"field","value":["ipv4","id"]},{"type":"field","value":["ipv4","flags"]},
{"type":"field","value":["ipv4","frag"]},{"type":"field","value":["ipv4","ttl"]},
{"type":"field","value":["ipv4","proto"]},{"type":"field","value":["ipv4","src"]},
{"type":"field","value":["ipv4","dst"]}]}],
"checksums":[{"name":"ipv4_csum","id":0,"target":["ipv4","csum"],"type":"generic",
"calculation":"ipv4_sum","verify":false,"update":true,
"if_cond":{"type":"expression",
"value":{"op":"d2b","left":null,"right":{"type":"field","value":["ipv4","$valid$"]}}}}]}
"#;

/// The bytes of the P4Info.
#[tactic(auto, unfolding(crate::specs::Router::router_info))]
pub fn info() -> &'static [u8]
    ensures { result.now ≡ router_info }
{
    &ROUTER_INFO
}

/// The bytes of the device configuration.
#[tactic(auto, unfolding(crate::specs::Router::router_json))]
pub fn json() -> &'static [u8]
    ensures { result.now ≡ router_json }
{
    &ROUTER_JSON
}
