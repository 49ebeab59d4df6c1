//! The documents that the tests read.

/// Files in memory, and the other required keys.
pub(crate) const MEMORY: &str = "version = 1
[server]
root = \"memory\"
passive_first = 40000
passive_last = 40001
[[user]]
name = \"ann\"
password = \"secret\"
home = \"/\"
perms = \"elradfmw\"
[[user]]
name = \"bob\"
password = \"b\"
home = \"/\"
[[user.override]]
path = \"/in\"
perms = \"w\"
recursive = true
[[dir]]
path = \"/in\"
[[file]]
path = \"/f\"
text = \"a\\nb\"
modified = 951827696
";

/// A folder, and each key of the server, of a group and of a user.
pub(crate) const FOLDER: &str = "version = 2
[server]
address = \"10.0.0.1\"
port = 21
root = \"/srv/ftp\"
capacity = 7
banner = \"Hello\"
max_cons = 5
max_cons_per_address = 4
max_login_attempts = 2
permit_foreign_addresses = true
permit_privileged_ports = true
masquerade_address = \"203.0.113.7\"
passive_first = 1
passive_last = 65535
lanes = 64
sessions = 4294967296
rate = 1099511627776
down_rate = 8
up_rate = 9
[[group]]
name = \"sales\"
down_rate = 40
[[group]]
name = \"build\"
down_rate = 3
up_rate = 4
[[user]]
name = \"ann\"
password = \"a\"
home = \"/home\"
group = \"build\"
down_rate = 11
up_rate = 12
session_down_rate = 13
session_up_rate = 14
session_down_floor = 15
session_up_floor = 16
msg_login = \"Hi\"
msg_quit = \"Bye\"
[[user]]
name = \"anonymous\"
password = 7
home = \"/pub\"
";
