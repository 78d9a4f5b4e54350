// Requests and their answers.

pub(super) const PLAIN: &str = "Content-Type: text/plain; charset=utf-8\r\n";

pub(super) const JSON: &str = "Content-Type: application/json\r\n";

pub(super) const METRICS: &str = "Content-Type: text/plain; version=0.0.4; charset=utf-8\r\n";

// Requests to a broker with sessions `a` and `b"\n`, and what they are answered: the status, the
// fields before Content-Length, and the body.
pub(super) const ROWS: &[(&str, &str, &str, &str)] = &[
    (
        "GET /healthz HTTP/1.1\r\nHost: x\r\n\r\n",
        "200 OK",
        PLAIN,
        "200 OK\n",
    ),
    (
        "GET /healthz?x HTTP/1.0\r\n\r\n",
        "200 OK",
        PLAIN,
        "200 OK\n",
    ),
    (
        "GET / HTTP/1.1\r\n\r\n",
        "404 Not Found",
        PLAIN,
        "404 Not Found\n",
    ),
    (
        "GET /Status HTTP/1.1\r\n\r\n",
        "404 Not Found",
        PLAIN,
        "404 Not Found\n",
    ),
    (
        "GET /sessions?limit=1 HTTP/1.1\r\n\r\n",
        "404 Not Found",
        PLAIN,
        "404 Not Found\n",
    ),
    (
        "GET  /healthz HTTP/1.1\r\n\r\n",
        "400 Bad Request",
        PLAIN,
        "400 Bad Request\n",
    ),
    (
        "GET /healthz HTTP/1.1\r\n",
        "400 Bad Request",
        PLAIN,
        "400 Bad Request\n",
    ),
    (
        "GET /healthz HTTP/2.0\r\n\r\n",
        "400 Bad Request",
        PLAIN,
        "400 Bad Request\n",
    ),
    ("", "400 Bad Request", PLAIN, "400 Bad Request\n"),
    (
        "GET /status HTTP/1.1\r\n\r\n",
        "200 OK",
        JSON,
        "{\"active\":{\"ballot\":2,\"members\":[1,2],\"primary\":1},\"nodes\":[\
         {\"node\":1,\"ballot\":2,\"role\":\"primary\",\"member\":true,\"held\":55,\
         \"committed\":54,\"lag\":0},\
         {\"node\":3,\"ballot\":1,\"role\":\"crashed\",\"member\":false,\"held\":2,\
         \"committed\":2,\"lag\":53}]}",
    ),
    (
        "GET /sessions HTTP/1.1\r\n\r\n",
        "200 OK",
        JSON,
        "[{\"client\":\"a\",\"connected_seconds\":7,\"queued\":3,\"in_flight\":1,\
         \"subscriptions\":2},\
         {\"client\":\"b\\\"\\n\",\"connected_seconds\":null,\"queued\":4096,\"in_flight\":0,\
         \"subscriptions\":1}]",
    ),
    (
        "GET /sessions?after=a HTTP/1.1\r\n\r\n",
        "200 OK",
        JSON,
        "[{\"client\":\"b\\\"\\n\",\"connected_seconds\":null,\"queued\":4096,\"in_flight\":0,\
         \"subscriptions\":1}]",
    ),
    (
        "GET /sessions?after=b%22%0A HTTP/1.1\r\n\r\n",
        "200 OK",
        JSON,
        "[]",
    ),
    (
        "GET /connections HTTP/1.1\r\n\r\n",
        "200 OK",
        JSON,
        "[{\"client\":\"a\",\"node\":1,\"connected_seconds\":7,\"unread_bytes\":0},\
         {\"client\":null,\"node\":1,\"connected_seconds\":0,\"unread_bytes\":0}]",
    ),
];

// Requests to a broker into which nobody looked, and what they are answered.
pub(super) const UNLOOKED: &[(&str, &str, &str, &str)] = &[
    (
        "GET /sessions HTTP/1.1\r\n\r\n",
        "503 Service Unavailable",
        PLAIN,
        "503 Service Unavailable\n",
    ),
    (
        "GET /connections HTTP/1.1\r\n\r\n",
        "503 Service Unavailable",
        PLAIN,
        "503 Service Unavailable\n",
    ),
    (
        "GET /status HTTP/1.1\r\n\r\n",
        "200 OK",
        JSON,
        "{\"active\":null,\"nodes\":[]}",
    ),
];

// The metrics of a broker without nodes into which nobody looked.
pub(super) const METRICS_OF_ORDERS: &str = "\
# HELP vbroker_takeovers_total Takeovers.
# TYPE vbroker_takeovers_total counter
vbroker_takeovers_total 1
# HELP vbroker_refusals_total Of orders.
# TYPE vbroker_refusals_total counter
vbroker_refusals_total{number=\"18\"} 2
# HELP vbroker_commands_held Held by a node.
# TYPE vbroker_commands_held gauge
# HELP vbroker_commands_committed As a node knows.
# TYPE vbroker_commands_committed gauge
";

// The metrics, in the text format of Prometheus: for each its help, its type, its samples.
pub(super) const METRICS_BODY: &str = "\
# HELP vbroker_connections Connections.
# TYPE vbroker_connections gauge
vbroker_connections 2
# HELP vbroker_connections_limit At most.
# TYPE vbroker_connections_limit gauge
vbroker_connections_limit 60
# HELP vbroker_sessions Sessions.
# TYPE vbroker_sessions gauge
vbroker_sessions 2
# HELP vbroker_sessions_limit At most.
# TYPE vbroker_sessions_limit gauge
vbroker_sessions_limit 4096
# HELP vbroker_retained Retained messages.
# TYPE vbroker_retained gauge
vbroker_retained 9
# HELP vbroker_retained_limit At most.
# TYPE vbroker_retained_limit gauge
vbroker_retained_limit 16384
# HELP vbroker_longest_queue Messages in it.
# TYPE vbroker_longest_queue gauge
vbroker_longest_queue 4096
# HELP vbroker_longest_queue_limit At most.
# TYPE vbroker_longest_queue_limit gauge
vbroker_longest_queue_limit 4096
# HELP vbroker_publications_total Taken.
# TYPE vbroker_publications_total counter
vbroker_publications_total 1000
# HELP vbroker_losses_total Steps without memory.
# TYPE vbroker_losses_total counter
vbroker_losses_total 0
# HELP vbroker_received_bytes_total Of clients.
# TYPE vbroker_received_bytes_total counter
vbroker_received_bytes_total 12
# HELP vbroker_sent_bytes_total For clients.
# TYPE vbroker_sent_bytes_total counter
vbroker_sent_bytes_total 34
# HELP vbroker_takeovers_total Takeovers.
# TYPE vbroker_takeovers_total counter
vbroker_takeovers_total 1
# HELP vbroker_refusals_total Of orders.
# TYPE vbroker_refusals_total counter
vbroker_refusals_total{number=\"18\"} 2
# HELP vbroker_commands_held Held by a node.
# TYPE vbroker_commands_held gauge
vbroker_commands_held{node=\"1\"} 55
vbroker_commands_held{node=\"3\"} 2
# HELP vbroker_commands_committed As a node knows.
# TYPE vbroker_commands_committed gauge
vbroker_commands_committed{node=\"1\"} 54
vbroker_commands_committed{node=\"3\"} 2
";
