//! An office of schema 1, by statements that no founding makes, in other letters and lines than those of the store.

/// Ann has handed a profile in twice, and rev has approved the first revision.
pub const OLD_OFFICE: &str = r#"create table office(key integer not null primary key,
  schema integer not null, listed integer not null) strict;
create table users(name text not null primary key, team text not null,
  roles integer not null, token blob not null unique) strict;
create table revisions(team text not null, profile text not null, number integer not null, author text not null,
  state integer not null, body text not null, digest blob not null,  primary key(team, profile, number)) strict;
create table votes(team text not null, profile text not null, number integer not null, voter text not null,
  approve integer not null, security integer not null, primary key(team, profile, number, voter)) strict;
create table baselines(team text not null primary key, profile text not null, number integer not null) strict;
insert into office values(1, 1, 2097152);
insert into users values('root', 'office', 1, x'ba7816bf8f01cfea414140de5dae2223b00361a396177a9cb410ff61f20015ad');
insert into users values('ann', 'blue', 2, x'b9382ae65bf200e3350f913c9c98f85340bd0ffff6d864c5c9c6829d2c5b05dd');
insert into users values('ben', 'blue', 6, x'b0d82a4cc7946c0a9397fa416544bdd975e288b61d39788e4f1a740a80075129');
insert into users values('rev', 'office', 4, x'c6be5267fea2eba314742579352918002962e8c076047877d111f95eb2bb6eae');
insert into users values('ray', 'office', 4, x'2a729e1bf489ac92986704ff403c4d3d2a15c2066feba531647c2a721217c966');
insert into users values('sue', 'office', 12, x'1cedc29c5bbef44da589b7c8f2cfe7a4539b238dbd1f11d1724d982035c1e785');
insert into users values('iss', 'office', 16, x'51f33083ff97a280a4f5409a93e8474a829afcbe5ef1bd936069921164e65d09');
insert into users values('m1', 'blue', 32, x'fbb71bfc5b15dfb5dfa9698afde227f6d64fcccbd3f12d77b4031644ab4b6ac1');
insert into users values('m2', 'red', 32, x'e85b90a7e08202966adcc910f47eff82e3aaba6eb12aad164febe6cb905d4090');
insert into revisions values('blue', 'web', 1, 'ann', 1,
  '{"capabilities":{"ambient":[],"bounding":[],"effective":[],"inheritable":[],"permitted":[]}}',
  x'67d59648e3164479ed30407333c338a60764f60cd31c54ca1cd477602ac5e5d6');
insert into revisions values('blue', 'web', 2, 'ann', 0,
  '{"capabilities":{"ambient":[],"bounding":[],"effective":[],"inheritable":[],"permitted":[]},"seccomp":{"defaultAction":"SCMP_ACT_KILL_PROCESS"}}',
  x'68a92f41776a711521830f21a18af0fdeaffdd13f5ae5a0db239a6d035c49f80');
insert into votes values('blue', 'web', 1, 'rev', 1, 0);"#;
