//! Why configurations are refused.

use crate::explained::{Asked, Case};
use sim_base::fault::Fault;
use sim_base::key::Key;

pub(crate) static OF_CONFIGS: [Case; 46] = [
    (
        Asked::Config(Fault::ConfigSyntax, "cores = 4\n\tcores = 8\n"),
        "c.toml: line 2, column 2: duplicate key\ncores = 8\n",
    ),
    (
        Asked::Config(Fault::ConfigSyntax, "# ä\ncores = four\n"),
        "c.toml: line 2, column 9: invalid value, expected a string, number, boolean, date-time, array or inline table\ncores = four\n",
    ),
    (
        Asked::Config(Fault::ConfigSyntax, "fields = [\"row\"\n"),
        "c.toml: line 2, column 1: missing comma between array elements, expected `,` or `]`\n",
    ),
    (
        Asked::Config(Fault::ConfigSyntax, "cores = 4\n"),
        "c.toml: a configuration is a TOML document in UTF-8\n",
    ),
    (
        Asked::Config(Fault::ConfigKey(Key::Cores), "channels = 2\n"),
        "c.toml: the key cores is missing; an integer from 1 to 256 may stand there\n",
    ),
    (
        Asked::Config(Fault::ConfigKey(Key::Cores), "Core = 4\nranks = 1\n"),
        "c.toml: the key cores is missing; an integer from 1 to 256 may stand there
c.toml: the key Core is not known: did you mean cores?\n",
    ),
    (
        Asked::Config(
            Fault::ConfigKey(Key::NRcd),
            "cores = 1\n[timing]\nnRCD = 16\n",
        ),
        "c.toml: the key nRCD is missing; an integer from 1 to 100000 may stand there
c.toml: it stands in the table timing, and must stand in none, so before the first line in brackets\n",
    ),
    (
        Asked::Config(
            Fault::ConfigKey(Key::Window),
            "[[link]]\nid = 1\nlatency = 2\nwindow = 128\n",
        ),
        "c.toml: the key window is missing; an integer from 1 to 4096 may stand there
c.toml: it stands in the table link, and must stand in none, so before the first line in brackets\n",
    ),
    (
        Asked::Config(Fault::ConfigKey(Key::Cores), "cores = 'four'\n"),
        "c.toml: cores = \"four\", where an integer from 1 to 256 may stand\n",
    ),
    (
        Asked::Config(Fault::ConfigKey(Key::Channels), "channels = 2.5\n"),
        "c.toml: channels = 2.5, where 1, 2, 4, 8 or 16 may stand\n",
    ),
    (
        Asked::Config(Fault::ConfigKey(Key::Unknown), "cores = 4\nspeed = 3200\n"),
        "c.toml: the key speed is not known\n",
    ),
    (
        Asked::Config(
            Fault::ConfigKey(Key::Unknown),
            "write_hihg = 24\nwrite_low = 8\n",
        ),
        "c.toml: the key write_hihg is not known: did you mean write_high?\n",
    ),
    (
        Asked::Config(
            Fault::ConfigKey(Key::NRcd),
            "nRC = 52\nnRDC = 16\nnRP = 16\n",
        ),
        "c.toml: the key nRCD is missing; an integer from 1 to 100000 may stand there
c.toml: the key nRDC is not known: did you mean nRCD?\n",
    ),
    (
        Asked::Config(Fault::ConfigKey(Key::Unknown), "nRTSR = 2\n"),
        "c.toml: the key nRTSR is not known: did you mean nRTRS?\n",
    ),
    (
        Asked::Config(Fault::ConfigKey(Key::Unknown), "cores = 4\nrank = 2\n"),
        "c.toml: the key rank is not known: did you mean ranks?\n",
    ),
    (
        Asked::Config(Fault::ConfigKey(Key::Unknown), "rank = 2\nranks = 4\n"),
        "c.toml: the key rank is not known\n",
    ),
    (
        Asked::Config(Fault::ConfigKey(Key::Unknown), "cores = 4\ncores2 = 5\n"),
        "c.toml: the key cores2 is not known\n",
    ),
    (
        Asked::Config(Fault::ConfigKey(Key::Link), "[link]\nid = 1\nlatency = 2\n"),
        "c.toml: link is a table, where tables [[link]] of an id and a latency may stand\n",
    ),
    (
        Asked::Config(Fault::ConfigKey(Key::Unknown), "cores = 4\n"),
        "c.toml: a key is not known\n",
    ),
    (
        Asked::Config(Fault::ConfigKey(Key::Link), "link = 3\n"),
        "c.toml: link = 3, where tables [[link]] of an id and a latency may stand\n",
    ),
    (
        Asked::Config(
            Fault::ConfigKey(Key::Link),
            "[[link]]\nid = 3\nlatency = 9\n[[link]]\nid = 4\n",
        ),
        "c.toml: item 2 of link: the key latency is missing; an integer from 1 to 1000000 may stand there\n",
    ),
    (
        Asked::Config(
            Fault::ConfigKey(Key::Link),
            "link = [{ id = 3, latency = 9, late = true }]\n",
        ),
        "c.toml: item 1 of link: the key late is not known\n",
    ),
    (
        Asked::Config(Fault::ConfigKey(Key::Link), "link = [3]\n"),
        "c.toml: item 1 of link is no table of id and latency\n",
    ),
    (
        Asked::Config(Fault::ConfigRange(Key::Cores), "cores = 300\n"),
        "c.toml: cores = 300, where 1 to 256 may stand\n",
    ),
    (
        Asked::Config(Fault::ConfigRange(Key::Rows), "rows = 0x30\n"),
        "c.toml: rows = 48, where a power of two from 1 to 262144 may stand\n",
    ),
    (
        Asked::Config(Fault::ConfigRange(Key::Fields), "fields = ['row', 'col']\n"),
        "c.toml: fields = [\"row\", \"col\"], where an array of \"channel\", \"column\", \"group\", \"bank\" and \"row\", each once, and \"rank\" where a channel has several may stand\n",
    ),
    (
        Asked::Config(Fault::ConfigRange(Key::End), "end = \"never\"\n"),
        "c.toml: end = \"never\", where \"limit\" or \"drained\" may stand\n",
    ),
    (
        Asked::Config(
            Fault::ConfigRange(Key::End),
            "end = \"0123456789012345678901234567890123456789012345678901234567890123456789012345678\"\n",
        ),
        "c.toml: end = \"0123456789012345678901234567890123456789012345678901234567890123456789012..., where \"limit\" or \"drained\" may stand\n",
    ),
    (
        Asked::Config(
            Fault::ConfigRange(Key::Link),
            "[[link]]\nid = 0\nlatency = 5\n[[link]]\nid = 1\nlatency = 0\n",
        ),
        "c.toml: item 2 of link: latency = 0, where 1 to 1000000 may stand\n",
    ),
    (
        Asked::Config(Fault::ConfigRange(Key::Width), "cores = \n"),
        "c.toml: at width 1 to 16 may stand\n",
    ),
    (
        Asked::Config(Fault::ConfigRelation(1), "nRTW = 3\nnCWL = 12\nnCL = 16\n"),
        "c.toml: nRTW + nCWL >= nCL + 4 does not hold: 3 + 12 is less than 16 + 4\n",
    ),
    (
        Asked::Config(Fault::ConfigRelation(1), "nRTW = 8\nnCWL = 12\nnCL = 16\n"),
        "c.toml: nRTW + nCWL >= nCL + 4 must hold\n",
    ),
    (
        Asked::Config(Fault::ConfigRelation(2), "nCCD_S = 3\n"),
        "c.toml: nCCD_S >= 4 does not hold: 3 is less than 4\n",
    ),
    (
        Asked::Config(Fault::ConfigRelation(3), "nCCD_S = 6\nnCCD_L = 5\n"),
        "c.toml: nCCD_L >= nCCD_S does not hold: 5 is less than 6\n",
    ),
    (
        Asked::Config(Fault::ConfigRelation(4), "nRRD_S = 6\nnRRD_L = 4\n"),
        "c.toml: nRRD_L >= nRRD_S does not hold: 4 is less than 6\n",
    ),
    (
        Asked::Config(Fault::ConfigRelation(5), "nWTR_S = 6\nnWTR_L = 3\n"),
        "c.toml: nWTR_L >= nWTR_S does not hold: 3 is less than 6\n",
    ),
    (
        Asked::Config(
            Fault::ConfigRelation(6),
            "nREFI = 100\nnRAS = 39\nnRTP = 9\nnCWL = 12\nnWR = 18\nnRP = 16\nranks = 2\nnRFC = 420\n",
        ),
        "c.toml: nREFI = 0 or nREFI >= max(nRAS, nRTP, nCWL + 4 + nWR) + nRP + (ranks - 1)(nRP + 1) + nRFC + 1 does not hold: 100 is less than max(39, 9, 12 + 4 + 18) + 16 + (2 - 1)(16 + 1) + 420 + 1, which is 493\n",
    ),
    (
        Asked::Config(
            Fault::ConfigRelation(7),
            "cores = 256\nread_credits = 32\nwrite_credits = 1\n",
        ),
        "c.toml: cores * (read_credits + write_credits) <= 8192 does not hold: 256 * (32 + 1) is greater than 8192\n",
    ),
    (
        Asked::Config(
            Fault::ConfigRelation(8),
            "cores = 4\nchannels = 2\nlink = [{ id = 23, latency = 1 }, { id = 24, latency = 1 }]\n",
        ),
        "c.toml: link has the id 24, and there are the links 0 to 23: 3 for each pair of a core and a channel\n",
    ),
    (
        Asked::Config(
            Fault::ConfigRelation(9),
            "link = [{ id = 5, latency = 1 }, { id = 7, latency = 1 }, { id = 5, latency = 2 }]\n",
        ),
        "c.toml: two items of link have the id 5\n",
    ),
    (
        Asked::Config(
            Fault::ConfigRelation(10),
            "ranks = 2\nfields = [\"channel\", \"column\", \"group\", \"bank\", \"row\"]\n",
        ),
        "c.toml: where ranks is above 1 fields must have \"rank\": ranks = 2, fields = [\"channel\", \"column\", \"group\", \"bank\", \"row\"]\n",
    ),
    (
        Asked::Config(Fault::ConfigRelation(11), "write_high = 8\nwrite_low = 8\n"),
        "c.toml: write_high = write_low = 0 or write_low < write_high does not hold: 8 is not less than 8\n",
    ),
    (
        Asked::Config(
            Fault::ConfigRelation(12),
            "write_high = 65\ncores = 4\nwrite_credits = 16\n",
        ),
        "c.toml: write_high <= cores * write_credits does not hold: 65 is greater than 4 * 16\n",
    ),
    (
        Asked::Config(Fault::ConfigRelation(12), ""),
        "c.toml: write_high <= cores * write_credits must hold\n",
    ),
    (
        Asked::Config(Fault::ConfigRelation(13), ""),
        "c.toml: relation 13 does not hold\n",
    ),
    (
        Asked::Bytes(b"cores = 4\nend = \"\xFF\x1B[2J\"\n"),
        "c.toml: line 2, column 8: this is no UTF-8\nend = \"?\\u{1b}[2J\"\n",
    ),
];
