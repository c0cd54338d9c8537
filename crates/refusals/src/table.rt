//! The tables of all refusals, by what they are about: a number or a code, where it is printed, its name, what is wrong in a few words,
//! what it means, what to do, and the standard.

ghost use Rattle.std.specs.Prelude.{◌≡◌, map};
ghost use Rattle.refusals.specs.Tables.{name_rows, data_rows, file_rows, zone_rows, policy_rows, store_rows, request_rows, command_rows, code_rows};

use crate::row::Kind;

/// A row of a table.
pub(crate) type Line = (
    &'static str,
    Kind,
    &'static str,
    &'static str,
    &'static str,
    &'static str,
    &'static str,
);

/// Names.
pub(crate) static NAMES: [(&str, Kind, &str, &str, &str, &str, &str); 6] = [
    (
        "1",
        Kind::Name,
        "empty label",
        "a label of the name is empty",
        "A label of the name is empty: two dots in a row, or a dot at its beginning.",
        "Write one dot between labels. Only the root is a dot by itself.",
        "RFC 1035 section 3.1",
    ),
    (
        "2",
        Kind::Name,
        "label too long",
        "a label of the name has more than 63 octets",
        "A label of the name has more than 63 octets.",
        "Shorten the label.",
        "RFC 1035 section 2.3.4",
    ),
    (
        "3",
        Kind::Name,
        "name too long",
        "the name has more than 255 octets",
        "The name has more than 255 octets, counting one for each label and one for the root.",
        "Shorten the name. A name without a dot at its end also has the labels of the origin.",
        "RFC 1035 section 2.3.4",
    ),
    (
        "4",
        Kind::Name,
        "bad escape",
        "a backslash in the name begins no escape: \\X or \\DDD with a number up to 255",
        "A backslash is at the end, or before a digit without two more after it, or before a number above 255.",
        "Write two backslashes for one, or a backslash and three digits up to 255 for any octet.",
        "RFC 1035 section 5.1",
    ),
    (
        "5",
        Kind::Name,
        "name not absolute",
        "the name is not absolute: it does not end in a dot",
        "The name does not end in a dot, and only absolute names are read here.",
        "Add a dot at its end.",
        "RFC 1035 section 5.1",
    ),
    (
        "6",
        Kind::Name,
        "empty name",
        "the name is empty",
        "The name has no octets.",
        "Write the name. The root is a dot.",
        "RFC 1035 section 5.1",
    ),
];

/// Types and record data.
pub(crate) static DATA: [(&str, Kind, &str, &str, &str, &str, &str); 11] = [
    (
        "11",
        Kind::Data,
        "bad address",
        "this is no address of the record's type",
        "The data of an A record is not an IPv4 address, or that of an AAAA record is not an IPv6 address.",
        "Correct the address or the type. Numbers in an IPv4 address have no leading zeros.",
        "RFC 1035 section 3.4.1, RFC 4291 section 2.2",
    ),
    (
        "12",
        Kind::Data,
        "bad number",
        "this is no decimal number",
        "A number in the record data has other characters than digits.",
        "Correct the number. Only seconds may have units: w, d, h, m and s.",
        "RFC 1035 section 5.1",
    ),
    (
        "13",
        Kind::Data,
        "number too large",
        "the number is too large for its field",
        "A number in the record data is too large for its field.",
        "Check the order of the fields. A preference, priority, weight or port is at most 65535, a serial or a number of seconds at most 4294967295.",
        "RFC 1035 section 3.3",
    ),
    (
        "14",
        Kind::Data,
        "string too long",
        "a character-string has more than 255 octets",
        "A character-string has more than 255 octets.",
        "Cut the text into several strings, each in quotes, in the same record.",
        "RFC 1035 section 3.3",
    ),
    (
        "15",
        Kind::Data,
        "field missing",
        "a field of the record data is missing",
        "The record data ends before its last field.",
        "Add the missing field. Data over several lines needs parentheses around it.",
        "RFC 1035 section 5.1",
    ),
    (
        "16",
        Kind::Data,
        "item too many",
        "an item stands after the record data",
        "An item follows the last field.",
        "Remove it. A text with spaces needs quotes, and a comment begins with a semicolon.",
        "RFC 1035 section 5.1",
    ),
    (
        "17",
        Kind::Type,
        "type not kept",
        "records of this type are not kept",
        "The record type is misspelled, or one that the office does not keep.",
        "Use A, NS, CNAME, SOA, PTR, MX, TXT, AAAA, SRV or DS. An entry names its TTL and its class only once, before the type.",
        "RFC 1035 section 3.2.2",
    ),
    (
        "18",
        Kind::Data,
        "data too long",
        "the record data have more than 65535 octets",
        "The record data has more than 65,535 octets.",
        "Make several records of it.",
        "RFC 1035 section 3.2.1",
    ),
    (
        "19",
        Kind::InnerName,
        "bad name",
        "the name is malformed",
        "A name in the entry is malformed, or a character-string has a bad escape. The number after the dot says what is wrong.",
        "Correct the name or the text.",
        "RFC 1035 section 5.1",
    ),
    (
        "20",
        Kind::Data,
        "quoted item",
        "a quoted item stands where a name, a number, an address or a digest is wanted",
        "An item in quotes is in the place of a name, a number, an address, a type or a digest.",
        "Remove the quotes. Only character-strings may have them.",
        "RFC 1035 section 5.1",
    ),
    (
        "33",
        Kind::Data,
        "bad digest",
        "the digest is no row of pairs of hexadecimal digits",
        "The digest is empty, or has an odd number of digits, or an octet that is not a hexadecimal digit.",
        "Copy the DS record again. Nothing follows the digest.",
        "RFC 4034 section 5.3",
    ),
];

/// Master files.
pub(crate) static FILES: [(&str, Kind, &str, &str, &str, &str, &str); 12] = [
    (
        "21",
        Kind::Whole,
        "parenthesis not closed",
        "a parenthesis is never closed",
        "The text ends inside parentheses. The line is that of the outermost one that is open.",
        "Close the parenthesis that is opened on this line.",
        "RFC 1035 section 5.1",
    ),
    (
        "22",
        Kind::Whole,
        "parenthesis not opened",
        "a parenthesis is closed that was never opened",
        "A parenthesis is closed that was never opened.",
        "Remove it, or open one before it. In a name or an unquoted text it needs a backslash.",
        "RFC 1035 section 5.1",
    ),
    (
        "23",
        Kind::Whole,
        "quote not closed",
        "a quote is never closed",
        "The text ends inside quotes. The line is that of the opening quote.",
        "Close the quote that is opened on this line. A quote within a text needs a backslash.",
        "RFC 1035 section 5.1",
    ),
    (
        "24",
        Kind::Whole,
        "no owner",
        "the record has no owner, and none stands before it",
        "The entry begins with white space, and no record before it has an owner.",
        "Begin the line with the owner. @ is the origin.",
        "RFC 1035 section 5.1",
    ),
    (
        "25",
        Kind::Whole,
        "no TTL",
        "the record has no TTL, and none is in force",
        "The record has no TTL, and none is in force.",
        "Write a line $TTL before it, or the TTL after the owner.",
        "RFC 2308 section 4",
    ),
    (
        "26",
        Kind::Whole,
        "class not IN",
        "only records of class IN are kept",
        "The class of the record is not IN.",
        "Remove the record, or correct its class.",
        "RFC 1035 section 3.2.4",
    ),
    (
        "27",
        Kind::Whole,
        "directive not read",
        "only the directives $ORIGIN and $TTL are read",
        "The directive is neither $ORIGIN nor $TTL.",
        "In the place of $INCLUDE or $GENERATE write the lines that it stands for. An owner that begins with a dollar sign needs a backslash before it.",
        "RFC 1035 section 5.1, RFC 2308 section 4",
    ),
    (
        "28",
        Kind::Whole,
        "bad TTL",
        "this is no TTL",
        "The TTL is malformed, or greater than 2147483647 seconds.",
        "Write seconds, as 3600 or 1h. A type does not begin with a digit.",
        "RFC 2181 section 8",
    ),
    (
        "29",
        Kind::Entry,
        "bad entry",
        "the entry is malformed",
        "The entry has a type, a name or data that is not right. The number after the dot says what is wrong.",
        "Correct the entry that begins on this line.",
        "RFC 1035 section 5.1",
    ),
    (
        "30",
        Kind::Whole,
        "input too large",
        "the input has more than 4194304 octets",
        "The input has more than 4,194,304 octets.",
        "Give less at a time: a zone may be imported in part, and the rest added by updates.",
        "",
    ),
    (
        "31",
        Kind::Whole,
        "entry too short",
        "the entry ends too soon",
        "The entry ends before its type, or a directive before its value.",
        "Complete the entry. An entry over several lines needs parentheses.",
        "RFC 1035 section 5.1",
    ),
    (
        "32",
        Kind::Unprinted,
        "write failed",
        "the master file could not be written",
        "The output could not be written. No line says so, since none could be written.",
        "See that there is room, and that what reads the output is still there.",
        "",
    ),
];

/// Zones and delegations.
pub(crate) static ZONES: [(&str, Kind, &str, &str, &str, &str, &str); 11] = [
    (
        "40",
        Kind::Whole,
        "no server",
        "a delegation names at least one server",
        "The delegation names no server.",
        "Name one server of the child or more.",
        "RFC 1034 section 4.2.1",
    ),
    (
        "41",
        Kind::Whole,
        "no SOA",
        "the zone has no SOA record",
        "The zone has no SOA record.",
        "Add one at the origin, and check that the origin is the one that you meant.",
        "RFC 1035 section 5.2",
    ),
    (
        "42",
        Kind::Whole,
        "two SOA records",
        "the zone has two SOA records",
        "The zone has two SOA records that differ.",
        "Remove one of them.",
        "RFC 1035 section 5.2",
    ),
    (
        "43",
        Kind::Whole,
        "SOA not at the origin",
        "an SOA record is not at the origin",
        "An SOA record is at another name than the origin.",
        "Check the origin on the command line, the lines $ORIGIN, and the dots at the ends of names.",
        "RFC 1035 section 5.2",
    ),
    (
        "44",
        Kind::Whole,
        "no NS at the origin",
        "the zone has no NS record at its origin",
        "The zone has no NS record at its origin.",
        "Add an NS record for each server of the zone.",
        "RFC 1034 section 4.2.1",
    ),
    (
        "45",
        Kind::Whole,
        "CNAME and other data",
        "a name has a CNAME record and another record",
        "A name has a CNAME record and a record of another type.",
        "Remove the CNAME record, or all others at this name.",
        "RFC 1034 section 3.6.2",
    ),
    (
        "46",
        Kind::Whole,
        "two CNAME records",
        "a name has two CNAME records",
        "A name has two CNAME records that differ.",
        "Remove one of them.",
        "RFC 1034 section 3.6.2",
    ),
    (
        "47",
        Kind::Whole,
        "record outside the zone",
        "a record is outside the zone",
        "The owner of a record is not within the origin, or that of a DS record is the origin.",
        "Check the origin on the command line and the lines $ORIGIN. A DS record of the zone belongs into the zone above it.",
        "RFC 1035 section 5.2, RFC 4034 section 5",
    ),
    (
        "48",
        Kind::Whole,
        "glue missing",
        "a server within the child has no address",
        "A server within the child has no address, so that no one could find it.",
        "Give an address with each server whose name is within the child.",
        "RFC 1034 section 4.2.1",
    ),
    (
        "49",
        Kind::Whole,
        "child not below the origin",
        "the child is not below the origin of the zone",
        "The child is not below the origin of the zone.",
        "Send the delegation to the zone that the child is in.",
        "RFC 1034 section 4.2",
    ),
    (
        "50",
        Kind::Whole,
        "origin is the root",
        "the origin is the root",
        "The origin is the root, and the office does not keep the root zone.",
        "Give the name of the zone as origin, with a dot at its end.",
        "",
    ),
];

/// Policies.
pub(crate) static POLICIES: [(&str, Kind, &str, &str, &str, &str, &str); 8] = [
    (
        "51",
        Kind::Whole,
        "policy not TOML",
        "the policy is no TOML document",
        "The policy is not a TOML document in UTF-8.",
        "Check quotes and brackets. Each rule begins with a line [[rule]].",
        "",
    ),
    (
        "52",
        Kind::Whole,
        "unknown key",
        "has a key that is not known",
        "The policy or a rule has a key that is not known.",
        "Correct or remove it. The keys of a rule are id, effect, caller, scope, at, types and actions.",
        "",
    ),
    (
        "53",
        Kind::Whole,
        "key missing",
        "is missing",
        "A rule lacks a key.",
        "Write all seven keys of the rule: id, effect, caller, scope, at, types and actions.",
        "",
    ),
    (
        "54",
        Kind::Whole,
        "bad value",
        "has a value that is not allowed",
        "A value of the policy is not one that its key may have; or a word of the command line is not a caller, not an action or not a rule for zones.",
        "An effect is grant or deny; a scope is name, subtree or below; an action is list, check, add, delete or delegate; an id or a caller is 1 to 64 letters, digits, hyphens, underscores and dots.",
        "",
    ),
    (
        "55",
        Kind::Whole,
        "id repeated",
        "has the id of a rule before it",
        "A rule has the id of a rule before it.",
        "Give each rule an id of its own.",
        "",
    ),
    (
        "56",
        Kind::Whole,
        "id reserved",
        "has the id `closing`, which is that of the closing default",
        "A rule has the id closing, which is that of the default that denies what no rule grants.",
        "Give the rule another id.",
        "",
    ),
    (
        "57",
        Kind::Whole,
        "too many rules",
        "the policy has more than 1024 rules",
        "The policy has more than 1,024 rules.",
        "Join rules: a rule may have several types and several actions.",
        "",
    ),
    (
        "58",
        Kind::RuleName,
        "bad name in a rule",
        "the name is malformed",
        "The value of at is not an absolute name. The number after the dot says what is wrong.",
        "Write an absolute name, with a dot at its end.",
        "RFC 1035 section 5.1",
    ),
];

/// Updates and stores.
pub(crate) static STORES: [(&str, Kind, &str, &str, &str, &str, &str); 8] = [
    (
        "61",
        Kind::Whole,
        "identifier used before",
        "the identifier was used for another update",
        "The caller gave this identifier to another update before. Nothing has changed.",
        "Send the update under a new identifier. Only an update that is sent again has its old one.",
        "",
    ),
    (
        "71",
        Kind::Whole,
        "zone exists",
        "there is a zone of this origin",
        "The store has a zone of this origin.",
        "To put this zone in its place, import with --replace.",
        "",
    ),
    (
        "72",
        Kind::Whole,
        "no such zone",
        "there is no zone of this origin",
        "There is no such store, or it has no zone of this origin.",
        "Check the path and the origin. import puts a zone into a store, and makes the store.",
        "",
    ),
    (
        "73",
        Kind::Whole,
        "serial not greater",
        "the serial is not greater than that of the zone in the store",
        "The serial of the SOA record is not greater than that of the zone in the store.",
        "Raise the serial above that which export prints.",
        "RFC 1982 section 3.2",
    ),
    (
        "74",
        Kind::Whole,
        "other version",
        "the store has not the tables of this version",
        "The file is a database, and its tables are missing, or not those of this version.",
        "Check the path. A store of version 1 needs migrate, once, after a backup.",
        "",
    ),
    (
        "75",
        Kind::Whole,
        "store failed",
        "the store failed",
        "The store cannot be read or written, is not a database, or is open in another process.",
        "Stop the other process. Check the owner and the permissions of the file and its folder, and the room on the disk.",
        "",
    ),
    (
        "76",
        Kind::Whole,
        "bad row",
        "the store has rows that zoneoffice does not write",
        "The store has a row that this program does not write: somebody else changed it, or the disk did.",
        "Keep the file as it is, and restore a backup. Do not edit a store by hand.",
        "",
    ),
    (
        "77",
        Kind::Whole,
        "no such change",
        "the zone has no change of this number",
        "The zone was not changed so often. Its first change has the number 1, and 0 is the zone as it was imported.",
        "Check the number. log prints the changes with theirs, and zones how many there are.",
        "",
    ),
];

/// Requests over HTTP and their bodies.
pub(crate) static REQUESTS: [(&str, Kind, &str, &str, &str, &str, &str); 12] = [
    (
        "81",
        Kind::Whole,
        "bad request head",
        "the head of the request is malformed or too long",
        "The head of the request is malformed, or has more than 16,384 octets or 64 fields; or its length is not a number, or two lengths differ.",
        "Send a request of HTTP/1.1 with one Content-Length.",
        "RFC 9112 sections 2.1 and 6.3",
    ),
    (
        "82",
        Kind::Whole,
        "no caller",
        "the request names no caller",
        "The request has no field X-Office-Caller, or two, or its value is not an identifier.",
        "Have the front server set the field, once, for each request that it passes on.",
        "",
    ),
    (
        "83",
        Kind::Whole,
        "no length",
        "the request states no length of its body",
        "A POST has no Content-Length, or a request has a Transfer-Encoding.",
        "Send the body whole, with its Content-Length.",
        "RFC 9110 section 15.5.12",
    ),
    (
        "84",
        Kind::Whole,
        "body too large",
        "the body has more than 65536 octets",
        "The body has more than 65,536 octets.",
        "Send several updates, one after the other.",
        "RFC 9110 section 15.5.14",
    ),
    (
        "85",
        Kind::Whole,
        "body not JSON",
        "the body is no JSON",
        "The body is not a JSON text in UTF-8.",
        "Check quotes, commas and braces. A body begins with a brace.",
        "RFC 8259 section 2",
    ),
    (
        "86",
        Kind::Whole,
        "unknown field",
        "a field of the body is not asked for",
        "An object of the body has a field that is not asked for.",
        "Correct or remove it.",
        "",
    ),
    (
        "87",
        Kind::Whole,
        "field of the body missing",
        "a field of the body is missing",
        "An object of the body lacks a field.",
        "Add the field.",
        "",
    ),
    (
        "88",
        Kind::Whole,
        "value not of its form",
        "a value of the body is not of its form",
        "A value of the body, or a part of the path, is not of its form.",
        "Names are absolute, numbers have no quotes, and types are kept ones.",
        "",
    ),
    (
        "89",
        Kind::Whole,
        "too many items",
        "an update has at most 64 prerequisites and 256 operations",
        "The update has more than 64 prerequisites or 256 operations.",
        "Make several updates of it, one after the other.",
        "",
    ),
    (
        "90",
        Kind::Whole,
        "no route",
        "no route has this method and target",
        "No route has this method and path, or the path has a question mark.",
        "Check the method and the path. A slash within a name is written %2F.",
        "",
    ),
    (
        "91",
        Kind::Whole,
        "request cut short",
        "the request was cut short",
        "The stream ended before the request did.",
        "Check the Content-Length, and send the request again.",
        "RFC 9112 section 8",
    ),
    (
        "92",
        Kind::Whole,
        "two SOA records added",
        "an update adds at most one SOA record",
        "Two operations of the update add an SOA record, even the same one.",
        "Remove one of them.",
        "",
    ),
];

/// Devices, memory and words of the command line.
pub(crate) static COMMANDS: [(&str, Kind, &str, &str, &str, &str, &str); 7] = [
    (
        "93",
        Kind::Whole,
        "read failed",
        "an input cannot be read, or nothing can listen at the address",
        "The input cannot be read, or there is no such file; or nothing can listen at the address, or a connection was lost.",
        "Check the path and its permissions. For serve, check that the address is of this machine and that nothing else listens there.",
        "",
    ),
    (
        "94",
        Kind::Whole,
        "connection not written",
        "the stream can't be written to",
        "A response could not be written: the peer went away, or did not take it in time.",
        "Nothing, if it is rare: the update was made or not, and the client sends it again under the same identifier.",
        "",
    ),
    (
        "95",
        Kind::Whole,
        "connection too long",
        "the stream is too long",
        "The connection was read 2^64 - 1 times.",
        "Nothing: the client opens another.",
        "",
    ),
    (
        "96",
        Kind::Whole,
        "no divider",
        "no line of the input is --",
        "No line of the input is --.",
        "Write a line -- between the records and the items of the update.",
        "",
    ),
    (
        "97",
        Kind::Whole,
        "not an item",
        "is no item of an update",
        "An entry after the divider is not an item of an update, or a parenthesis or a quote there is wrong.",
        "Begin it with a word such as add, delete-record or rrset-exists. Names are absolute, add has a TTL, and there is no class.",
        "RFC 2136 sections 2.4 and 2.5",
    ),
    (
        "98",
        Kind::Whole,
        "unknown number",
        "the program prints no such number",
        "The program never prints this number, or this word, for a refusal.",
        "Copy it from the line, as 29.19.1 or NXRRSET. Without a number, explain prints them all.",
        "",
    ),
    (
        "99",
        Kind::Whole,
        "out of memory",
        "out of memory",
        "Memory ran out. That says nothing about what was asked.",
        "Ask again, when other programs need less.",
        "",
    ),
];

/// The codes of RFC 2136 section 2.2.
pub(crate) static CODES: [(&str, Kind, &str, &str, &str, &str, &str); 9] = [
    (
        "FORMERR",
        Kind::Whole,
        "update malformed",
        "the update is malformed",
        "The body of the request is refused, and its number says why.",
        "Correct it, and send it under the same identifier.",
        "RFC 2136 section 2.2",
    ),
    (
        "SERVFAIL",
        Kind::Whole,
        "server failed",
        "the store failed, or memory ran out",
        "The store failed or memory ran out. Nothing has changed.",
        "Send the request again, under the same identifier. If it lasts, look at the disk and the store.",
        "RFC 2136 section 2.2",
    ),
    (
        "NXDOMAIN",
        Kind::Whole,
        "name not used",
        "a name that is wanted has no records",
        "A prerequisite wants records at a name that has no records.",
        "Read what is there now, and send another update under a new identifier.",
        "RFC 2136 section 2.2",
    ),
    (
        "REFUSED",
        Kind::Whole,
        "not permitted",
        "the policy denies it",
        "The policy denies what an item asks for. The reply names the rule.",
        "Ask those who write the policy, and name the rule to them.",
        "RFC 2136 section 2.2",
    ),
    (
        "YXDOMAIN",
        Kind::Whole,
        "name used",
        "a name that is not wanted has records",
        "A prerequisite wants no records at a name, and there are some.",
        "Read what is there now, and send another update under a new identifier.",
        "RFC 2136 section 2.2",
    ),
    (
        "YXRRSET",
        Kind::Whole,
        "record set exists",
        "a record set that is not wanted exists",
        "A prerequisite wants no records of a type at a name, and there are some.",
        "Read what is there now, and send another update under a new identifier.",
        "RFC 2136 section 2.2",
    ),
    (
        "NXRRSET",
        Kind::Whole,
        "record set absent or different",
        "a record set that is wanted is absent, or another",
        "A prerequisite wants records of a type at a name, and they are not there, or are others.",
        "Read what is there now, and send another update under a new identifier.",
        "RFC 2136 section 2.2",
    ),
    (
        "NOTAUTH",
        Kind::Whole,
        "no such zone",
        "there is no zone of this origin",
        "The office has no zone of this origin.",
        "Check the origin in the path.",
        "RFC 2136 section 2.2",
    ),
    (
        "NOTZONE",
        Kind::Whole,
        "name outside the zone",
        "a name is outside the zone",
        "The name of an item is not within the zone.",
        "Send the item to the zone that has the name. Check the dot at the end of the name.",
        "RFC 2136 section 2.2",
    ),
];

/// Names.
pub(crate) fn names() -> &'static [Line]
    ensures { map (λ r. record { number = r.0.now; kind = r.1; name = r.2.now; words = r.3.now; meaning = r.4.now; advice = r.5.now; source = r.6.now }) result.now ≡ name_rows }
{
    &NAMES
}

/// Types and record data.
pub(crate) fn data() -> &'static [Line]
    ensures { map (λ r. record { number = r.0.now; kind = r.1; name = r.2.now; words = r.3.now; meaning = r.4.now; advice = r.5.now; source = r.6.now }) result.now ≡ data_rows }
{
    &DATA
}

/// Master files.
pub(crate) fn files() -> &'static [Line]
    ensures { map (λ r. record { number = r.0.now; kind = r.1; name = r.2.now; words = r.3.now; meaning = r.4.now; advice = r.5.now; source = r.6.now }) result.now ≡ file_rows }
{
    &FILES
}

/// Zones and delegations.
pub(crate) fn zones() -> &'static [Line]
    ensures { map (λ r. record { number = r.0.now; kind = r.1; name = r.2.now; words = r.3.now; meaning = r.4.now; advice = r.5.now; source = r.6.now }) result.now ≡ zone_rows }
{
    &ZONES
}

/// Policies.
pub(crate) fn policies() -> &'static [Line]
    ensures { map (λ r. record { number = r.0.now; kind = r.1; name = r.2.now; words = r.3.now; meaning = r.4.now; advice = r.5.now; source = r.6.now }) result.now ≡ policy_rows }
{
    &POLICIES
}

/// Updates and stores.
pub(crate) fn stores() -> &'static [Line]
    ensures { map (λ r. record { number = r.0.now; kind = r.1; name = r.2.now; words = r.3.now; meaning = r.4.now; advice = r.5.now; source = r.6.now }) result.now ≡ store_rows }
{
    &STORES
}

/// Requests over HTTP and their bodies.
pub(crate) fn requests() -> &'static [Line]
    ensures { map (λ r. record { number = r.0.now; kind = r.1; name = r.2.now; words = r.3.now; meaning = r.4.now; advice = r.5.now; source = r.6.now }) result.now ≡ request_rows }
{
    &REQUESTS
}

/// Devices, memory and words of the command line.
pub(crate) fn commands() -> &'static [Line]
    ensures { map (λ r. record { number = r.0.now; kind = r.1; name = r.2.now; words = r.3.now; meaning = r.4.now; advice = r.5.now; source = r.6.now }) result.now ≡ command_rows }
{
    &COMMANDS
}

/// The codes of RFC 2136 section 2.2.
pub(crate) fn codes() -> &'static [Line]
    ensures { map (λ r. record { number = r.0.now; kind = r.1; name = r.2.now; words = r.3.now; meaning = r.4.now; advice = r.5.now; source = r.6.now }) result.now ≡ code_rows }
{
    &CODES
}
